// A run of two worlds, whatever values the keys have that neither gives.
ghost use Rattle.std.specs.Prelude.{◌≡◌, ◌↔◌, ◌||◌, IfErr, IfOk, IsTrue, MatchResult, if◌then◌else◌};
ghost use Rattle.std.specs.Io.KnownBytes.{Appends};
ghost use Rattle.iam_matrix.specs.Workers.{IsUnlawful};
ghost use Rattle.iam_app.specs.AnyKeyChanges.{EndsTurnedChangesBy, HasTurnedChanges, HaveSome, IsTurnedComparison, changes_in};
ghost use Rattle.iam_app.specs.Changes.{IsOfBefore};
ghost use Rattle.iam_app.specs.ChangesFault.{fails_on};
ghost use Rattle.iam_app.specs.Code.TurningSides.{IsUntold, TellsTurned};
ghost use Rattle.iam_app.specs.Streams.{ConsumesAtMost};

use crate::OutOfMemory;
use crate::cells::format_in;
use crate::changes::{fails_on, of_before, read_side};
use crate::changes_fault::{ChangesFault, Side};
use crate::command::NOTHING_ASKED;
use crate::every::NOT_SHOWN;
use crate::fault::RunFault;
use crate::output::{Report, write_report};
use iam_changes::{Kinds, Requests};
use iam_layers::World;
use iam_matrix::{MatrixFault, Open, is_unlawful};
use iam_open_changes::{ChangesAnswer, Kinds as RowKinds, any_key_changes_report};
use iam_options::{FailOn, RunOptions};
use iam_report::buffer;
use std::alloc::Global;
use std::io::{Read, Write};
use std::mem;
use std::thread::Threads;

/// What came of a run of two worlds whatever values keys have.
#[derive(Clone, Copy, Debug, PartialEq, Eq)]
pub struct TurnedChanges {
    /// The kinds of rows that were written.
    pub kinds: RowKinds,
    /// Whether there is a request.
    pub some: bool,
}

/// Whether one of the worlds has a request.
fn have_some(before: &World, after: &World) -> bool
    ensures { IsTrue result ↔ HaveSome before.now after.now }
{
    before.cells() > 0 || after.cells() > 0
}

/// The report that the options ask for, of the two worlds.
fn report_of<T: Threads + Sync>(
    rt: &T,
    alloc: Global,
    options: RunOptions,
    before: &World,
    after: &World,
) -> Result<ChangesAnswer, OutOfMemory>
    requires { ¬ IsUnlawful options.workers }
    ensures { IfOk result (λ report. IsTurnedComparison options before.now after.now report.text.items report.kinds) }
{
    let requests = Requests::of(alloc, before, after)?;
    any_key_changes_report(
        rt,
        alloc,
        &requests,
        options.workers,
        &Open,
        format_in(options.json),
        options.brief,
    )
}

/// Writes the report that the options ask for, of the two worlds.
fn answer<T: Threads + Sync, W: Write>(
    rt: &T,
    alloc: Global,
    options: RunOptions,
    before: &World,
    after: &World,
    writer: &mut W,
) -> Result<TurnedChanges, RunFault>
    ensures done { IfOk result (TellsTurned options before.now after.now (Appends (W.contents writer.old) (W.contents writer.new))) }
    ensures fault { IfErr result (IsUntold options before.now after.now (W.contents writer.old) (W.contents writer.new)) }
{
    if is_unlawful(options.workers) {
        return Err(RunFault::Matrix(MatrixFault::Workers));
    }
    let ChangesAnswer { text, kinds } = report_of(rt, alloc, options, before, after)?;
    let some = have_some(before, after);
    let mut kept = buffer(alloc)?;
    match write_report(writer, &mut kept, &Report::Whole(text)) {
        Ok(()) => Ok(TurnedChanges { kinds, some }),
        Err(_) => Err(RunFault::Write),
    }
}

/// Reads two worlds, and writes which requests are allowed in one of them alone in some of the contexts in question, whatever values the keys
/// have that neither gives, or that this is not known; what is told beside the report. The whole report is made before its first byte is
/// written. At most 8,388,609 bytes are read of each. The first fault in this order ends the run: of the world before `Read`, `Before`,
/// `Twice`; of the world after `Read`, `World`, `Twice`; then `Matrix` for the number of workers, `Write`. That there is no memory can come
/// at any point before the writing. After every fault except `Write` nothing was written; after `Write` a beginning of the report. After
/// `Before` and `Twice` of the world before, nothing was read of the world after.
pub fn run_any_key_changes<T: Threads + Sync, R: Read, S: Read, W: Write>(
    rt: &T,
    alloc: Global,
    options: RunOptions,
    before: &mut R,
    after: &mut S,
    writer: &mut W,
) -> Result<TurnedChanges, ChangesFault>
    ensures most_before { ConsumesAtMost (R.remaining before.old) (R.remaining before.new) 8388609 }
    ensures most_after { ConsumesAtMost (S.remaining after.old) (S.remaining after.new) 8388609 }
    ensures done { IfOk result (HasTurnedChanges options (R.remaining before.old) (S.remaining after.old)
        (Appends (W.contents writer.old) (W.contents writer.new))) }
    ensures fault { IfErr result (EndsTurnedChangesBy options (R.remaining before.old) (S.remaining after.old)
        (W.contents writer.old) (W.contents writer.new)) }
    ensures unread { IfErr result (λ fault. IsOfBefore fault → S.remaining after.new ≡ S.remaining after.old) }
{
    let before = match read_side(alloc, before, Side::Before) {
        Ok(world) => world,
        Err(fault) => return Err(of_before(fault)),
    };
    let after = match read_side(alloc, after, Side::After) {
        Ok(world) => world,
        Err(fault) => return Err(fault),
    };
    let told = answer(rt, alloc, options, &before, &after, writer);
    // The run ends soon, as one of a single world.
    mem::forget(before);
    mem::forget(after);
    match told {
        Ok(told) => Ok(told),
        Err(fault) => Err(ChangesFault::Run(fault)),
    }
}

/// The kinds of changes among the rows.
fn changes_in(kinds: RowKinds) -> Kinds
    ensures { result ≡ changes_in kinds }
{
    Kinds {
        gained: kinds.gained,
        lost: kinds.lost,
        differs: false,
    }
}

/// The exit status of a run of two worlds whatever values keys have: 0 done, 1 a fault, 3 done with a row of the kind that is asked about,
/// else 5 done with a row that is open, else 4 done without a request, unless this is allowed.
pub fn any_key_changes_status(
    outcome: &Result<TurnedChanges, ChangesFault>,
    fail_on: Option<FailOn>,
    allow_empty: bool,
) -> u8
    ensures { MatchResult outcome.now (λ told. result ≡ (if fails_on fail_on (changes_in told.kinds) then 3
        else (if told.kinds.unknown then 5 else (if told.some || allow_empty then 0 else 4)))) (λ _. result ≡ 1) }
{
    match outcome {
        Ok(told) if fails_on(fail_on, changes_in(told.kinds)) => 3,
        Ok(told) if told.kinds.unknown => NOT_SHOWN,
        Ok(told) if told.some || allow_empty => 0,
        Ok(_) => NOTHING_ASKED,
        Err(_) => 1,
    }
}
