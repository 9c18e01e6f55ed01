// A run of two worlds: what has changed from one to the other.
ghost use Rattle.std.specs.Prelude.{◌≡◌, ◌≢◌, ◌↔◌, IfErr, IfOk, IsTrue, MatchResult, OnOk, if◌then◌else◌, sum};
ghost use Rattle.std.specs.Io.KnownBytes.{Appends};
ghost use Rattle.iam_matrix.specs.declared.cut.CutFault.TheVariants as c;
ghost use Rattle.iam_changes.specs.Code.Pieces.{report_text};
ghost use Rattle.iam_app.specs.Changes.{CanCompare, EndsChangesBy, HasCutOf, HasNoCutOf, HasSide, IsAskedChanges, IsNoComparison, IsOfBefore, SelectsOneOf, TellsChanges, WritesChanges};
ghost use Rattle.iam_app.specs.ChangesFault.{fails_on};
ghost use Rattle.iam_app.specs.Code.Sides.{IsNoSide, IsNotWritten, of_before};
ghost use Rattle.iam_app.specs.Streams.{ConsumesAtMost};

use crate::OutOfMemory;
use crate::cells::{format_in, tile_length};
use crate::changes_fault::{ChangesFault, Side};
use crate::fault::RunFault;
use crate::input::read_input;
use crate::output::{Report, write_report};
use iam_changes::{ChangesText, Kinds, Requests, first_twice};
use iam_compare::changes_report;
use iam_layers::World;
use iam_matrix::{Cut, CutFault, Open};
use iam_options::{ChangesOptions, FailOn};
use iam_report::buffer;
use iam_selection::{Selection, selects_some};
use std::alloc::Global;
use std::io::{Read, Write};
use std::mem;
use std::thread::Threads;

/// Reads one of two worlds, whose requests have to be told apart.
pub fn read_side<R: Read>(alloc: Global, reader: &mut R, side: Side) -> Result<World, ChangesFault>
    ensures most { ConsumesAtMost (R.remaining reader.old) (R.remaining reader.new) 8388609 }
    ensures ok { IfOk result (λ world. HasSide (R.remaining reader.old) world) }
    ensures fault { IfErr result (IsNoSide side (R.remaining reader.old)) }
{
    let bytes = match read_input(alloc, reader) {
        Ok(bytes) => bytes,
        Err(fault) => return Err(ChangesFault::Run(RunFault::from(fault))),
    };
    let world = match World::from_vec(alloc, bytes) {
        Ok(world) => world,
        Err(fault) => return Err(ChangesFault::Run(RunFault::World(fault))),
    };
    match first_twice(alloc, &world)? {
        None => Ok(world),
        Some(twice) => Err(ChangesFault::Twice(side, twice)),
    }
}

/// The same fault, told of the world before: one that is no world ends as `Before`.
pub fn of_before(fault: ChangesFault) -> ChangesFault
    ensures { result ≡ of_before fault }
{
    match fault {
        ChangesFault::Run(RunFault::World(fault)) => ChangesFault::Before(fault),
        fault => fault,
    }
}

/// What came of a run of two worlds.
#[derive(Clone, Copy, Debug, PartialEq, Eq)]
pub struct Comparison {
    /// The kinds of changes that were written.
    pub kinds: Kinds,
    /// Whether some request was asked about.
    pub some: bool,
}

/// Whether some request of two worlds is selected.
fn selects_one_of(
    alloc: Global,
    selection: &Selection,
    before: &World,
    after: &World,
) -> Result<bool, OutOfMemory>
    ensures { IfOk result (λ some. IsTrue some ↔ SelectsOneOf selection.now before.now after.now) }
{
    if selects_some(alloc, before, selection)? {
        return Ok(true);
    }
    selects_some(alloc, after, selection)
}

/// The requests of two worlds in tiles of the asked length.
fn cut_requests(
    alloc: Global,
    options: &ChangesOptions,
    requests: &Requests<'_>,
) -> Result<Cut, CutFault>
    ensures whole { IfOk result (λ cut. sum cut ≡ requests.now.count) }
    ensures cut { OnOk result (HasCutOf options.now requests.now.before requests.now.after) }
    ensures fault { IfErr result (λ fault. fault ≢ c.OutOfMemory → HasNoCutOf options.now requests.now.before requests.now.after fault) }
{
    let count = requests.count();
    Cut::even(alloc, tile_length(options.tile, count), count)
}

/// The report of what has changed among the requests of two worlds.
fn report_of<T: Threads + Sync>(
    rt: &T,
    alloc: Global,
    options: &ChangesOptions,
    selection: &Selection,
    requests: &Requests<'_>,
) -> Result<ChangesText, RunFault>
    ensures work { OnOk result (CanCompare options.now requests.now.before requests.now.after) }
    ensures ok { IfOk result (λ report. IsAskedChanges options.now selection.now requests.now.before requests.now.after (report_text report) report.kinds) }
    ensures fault { IfErr result (λ fault. IsNoComparison options.now requests.now.before requests.now.after fault) }
{
    let cut = cut_requests(alloc, options, requests)?;
    let report = changes_report(
        rt,
        alloc,
        requests,
        selection,
        options.all,
        &cut,
        options.workers,
        &Open,
        format_in(options.json),
        options.brief,
    )?;
    Ok(report)
}

/// The report of what has changed from one world to another.
fn compare<T: Threads + Sync>(
    rt: &T,
    alloc: Global,
    options: &ChangesOptions,
    selection: &Selection,
    before: &World,
    after: &World,
) -> Result<ChangesText, RunFault>
    ensures work { OnOk result (CanCompare options.now before.now after.now) }
    ensures ok { IfOk result (λ report. IsAskedChanges options.now selection.now before.now after.now (report_text report) report.kinds) }
    ensures fault { IfErr result (λ fault. IsNoComparison options.now before.now after.now fault) }
{
    let requests = Requests::of(alloc, before, after)?;
    report_of(rt, alloc, options, selection, &requests)
}

/// Reads two worlds, and writes what has changed from the first to the second; the kinds of changes that were written. The whole
/// report is made before its first byte is written. At most 8,388,609 bytes are read of each. The first fault in this order
/// ends the run: of the world before `Read`, `Before`, `Twice`; of the world after `Read`, `World`, `Twice`; then `Cut`,
/// `Matrix`, `Write`. That there is no memory can come at any point before the writing, as in [`crate::run`]. After every
/// fault except `Write` nothing was written; after `Write` a beginning of the report. After `Before` and `Twice` of the world
/// before, nothing was read of the world after.
pub fn run_changes<T: Threads + Sync, R: Read, S: Read, W: Write>(
    rt: &T,
    alloc: Global,
    options: &ChangesOptions,
    selection: &Selection,
    before: &mut R,
    after: &mut S,
    writer: &mut W,
) -> Result<Kinds, ChangesFault>
    ensures most_before { ConsumesAtMost (R.remaining before.old) (R.remaining before.new) 8388609 }
    ensures most_after { ConsumesAtMost (S.remaining after.old) (S.remaining after.new) 8388609 }
    ensures done { IfOk result (λ kinds. WritesChanges options.now selection.now (R.remaining before.old) (S.remaining after.old) (W.contents writer.old) (W.contents writer.new) kinds) }
    ensures fault { IfErr result (λ fault. EndsChangesBy options.now selection.now (R.remaining before.old) (S.remaining after.old) (W.contents writer.old) (W.contents writer.new) fault) }
    ensures unread { IfErr result (λ fault. IsOfBefore fault → S.remaining after.new ≡ S.remaining after.old) }
{
    match tell_changes(rt, alloc, options, selection, before, after, writer) {
        Ok(compared) => Ok(compared.kinds),
        Err(fault) => Err(fault),
    }
}

/// Runs as [`run_changes`] does, and tells also whether some request was asked about.
pub fn tell_changes<T: Threads + Sync, R: Read, S: Read, W: Write>(
    rt: &T,
    alloc: Global,
    options: &ChangesOptions,
    selection: &Selection,
    before: &mut R,
    after: &mut S,
    writer: &mut W,
) -> Result<Comparison, ChangesFault>
    ensures most_before { ConsumesAtMost (R.remaining before.old) (R.remaining before.new) 8388609 }
    ensures most_after { ConsumesAtMost (S.remaining after.old) (S.remaining after.new) 8388609 }
    ensures done { IfOk result (TellsChanges options.now selection.now (R.remaining before.old) (S.remaining after.old) (W.contents writer.old) (W.contents writer.new)) }
    ensures fault { IfErr result (λ fault. EndsChangesBy options.now selection.now (R.remaining before.old) (S.remaining after.old) (W.contents writer.old) (W.contents writer.new) fault) }
    ensures unread { IfErr result (λ fault. IsOfBefore fault → S.remaining after.new ≡ S.remaining after.old) }
{
    let before = match read_side(alloc, before, Side::Before) {
        Ok(world) => world,
        Err(fault) => return Err(of_before(fault)),
    };
    let after = read_side(alloc, after, Side::After)?;
    let some = selects_one_of(alloc, selection, &before, &after)?;
    let report = compare(rt, alloc, options, selection, &before, &after);
    // The run ends soon, as one of a single world.
    mem::forget(before);
    mem::forget(after);
    let kinds = write_changes(alloc, report?, writer)?;
    Ok(Comparison { kinds, some })
}

/// Writes the whole report, and flushes behind its last byte; the kinds of changes that it has.
fn write_changes<W: Write>(
    alloc: Global,
    report: ChangesText,
    writer: &mut W,
) -> Result<Kinds, ChangesFault>
    ensures done { IfOk result (λ kinds. (kinds ≡ report.kinds) × Appends (W.contents writer.old) (W.contents writer.new) (report_text report)) }
    ensures fault { IfErr result (λ fault. IsNotWritten (W.contents writer.old) (W.contents writer.new) (report_text report) fault) }
{
    let kinds = report.kinds();
    let mut kept = buffer(alloc)?;
    write_report(writer, &mut kept, &Report::Changes(report)).map_err(|_| RunFault::Write)?;
    Ok(kinds)
}

/// Whether changes of these kinds end a run with a status of its own.
pub fn fails_on(fail_on: Option<FailOn>, kinds: Kinds) -> bool
    ensures { result ≡ fails_on fail_on kinds }
{
    match fail_on {
        None => false,
        Some(FailOn::Gained) => kinds.gained,
        Some(FailOn::Lost) => kinds.lost,
        Some(FailOn::Any) => kinds.gained || kinds.lost || kinds.differs,
    }
}

/// The exit status of a run of two worlds: 0 done, 1 a fault, 3 done with a row of the kind that is asked about.
pub fn changes_status(outcome: &Result<Kinds, ChangesFault>, fail_on: Option<FailOn>) -> u8
    ensures { MatchResult outcome.now (λ kinds. result ≡ (if fails_on fail_on kinds then 3 else 0)) (λ _. result ≡ 1) }
{
    match outcome {
        Ok(kinds) if fails_on(fail_on, *kinds) => 3,
        Ok(_) => 0,
        Err(_) => 1,
    }
}
