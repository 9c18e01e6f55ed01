// A run with a selection: of the commands about all cells, what is asked for is decided and reported alone.
ghost use Rattle.std.specs.Prelude.{◌≡◌, ◌↔◌, IfOk, IfErr, IsTrue, OnOk};
ghost use Rattle.std.specs.Io.KnownBytes.{Appends};
ghost use Rattle.std.specs.List.{AllZip};
ghost use Rattle.iam_app.specs.Code.Pieces.{report_text};
ghost use Rattle.iam_app.specs.Output.{CanWork, IsCellsRefusal, IsRefusal, IsWorldRefusal, format_of};
ghost use Rattle.iam_app.specs.Selected.{AsksSome, EndsSelectedBy, HasSelectedOutput, HasToldOutput, IsSelectedOf, IsSelectionOf, IsToldOutput, Means, patterns_in};
ghost use Rattle.iam_app.specs.Streams.{ConsumesAtMost};
ghost use Rattle.iam_decision.specs.declared.verdict.Decision.{Decision};
ghost use Rattle.iam_row.specs.Words.{decision_word};
ghost use Rattle.iam_matrix.specs.declared.fault.MatrixFault.TheVariants as m;
ghost use Rattle.iam_selection.specs.Report.{IsFirstSelectedReport, IsSelectedReport};
ghost use Rattle.iam_selection.specs.Selection.{SelectsSome};

use crate::OutOfMemory;
use crate::cells::{cut_cells, format_in};
use crate::fault::RunFault;
use crate::input::read_input;
use crate::output::{Report, write_report};
use crate::program::report;
use iam_layers::{Decision, World};
use iam_matrix::{MatrixFault, Open};
use iam_options::{Asked, Options, Task};
use iam_report::buffer;
use iam_selection::{Selection, first_selected_report, pattern_of, selected_report, selects_some};
use iam_text::{Glob, Items};
use std::alloc::Global;
use std::io::{Read, Write};
use std::mem;
use std::thread::Threads;

/// The patterns that these words are.
pub fn patterns(alloc: Global, words: &[String]) -> Result<Items<Glob>, OutOfMemory>
    ensures { IfOk result (λ patterns. patterns ≡ patterns_in words.now) }
{
    let mut patterns = Vec::new(alloc);
    for word in words {
        patterns.push(pattern_of(alloc, word.as_str())?)?;
    }
    Ok(Items::from_vec(patterns))
}

/// The decision of a word, which is one of the three.
fn decision(word: &str) -> Decision
    ensures { (said : Decision) → word.now ≡ decision_word said → result ≡ said }
{
    match word {
        "allowed" => Decision::Allowed,
        "explicitDeny" => Decision::ExplicitDeny,
        _ => Decision::ImplicitDeny,
    }
}

/// The decisions of these words.
pub fn decisions(alloc: Global, words: &[String]) -> Result<Items<Decision>, OutOfMemory>
    ensures { IfOk result (λ decisions. AllZip Means words.now decisions) }
{
    let mut decisions = Vec::new(alloc);
    for word in words {
        decisions.push(decision(word.as_str()))?;
    }
    Ok(Items::from_vec(decisions))
}

/// What is asked for by the words of a command line. `OutOfMemory` comes where there is no memory for it.
pub fn selection_of(alloc: Global, asked: &Asked) -> Result<Selection, OutOfMemory>
    ensures { IfOk result (IsSelectionOf asked.now) }
{
    Ok(Selection {
        principals: patterns(alloc, asked.principals.as_slice())?,
        actions: patterns(alloc, asked.actions.as_slice())?,
        resources: patterns(alloc, asked.resources.as_slice())?,
        decisions: decisions(alloc, asked.decisions.as_slice())?,
    })
}

/// A report, and whether some request was asked about.
#[derive(Drop)]
struct Told {
    report: Report,
    some: bool,
}

/// Whether some request of the world is selected.
fn is_asked(alloc: Global, world: &World, selection: &Selection) -> Result<bool, MatrixFault>
    ensures some { IfOk result (λ some. IsTrue some ↔ SelectsSome selection.now world.now) }
    ensures fault { IfErr result (λ fault. fault ≡ m.OutOfMemory) }
{
    Ok(selects_some(alloc, world, selection)?)
}

/// The report of the rows that are asked for.
fn matrix<T: Threads + Sync>(
    rt: &T,
    alloc: Global,
    options: &Options,
    selection: &Selection,
    world: &World,
) -> Result<Told, RunFault>
    ensures work { OnOk result (CanWork options.now world.now) }
    ensures ok { IfOk result (λ answer. IsSelectedReport (format_of options.now.json) options.now.brief selection.now world.now (report_text answer.report)) }
    ensures some { IfOk result (λ answer. IsTrue answer.some ↔ SelectsSome selection.now world.now) }
    ensures fault { IfErr result (λ fault. IsCellsRefusal options.now world.now fault) }
{
    let cut = cut_cells(alloc, options, world)?;
    let some = is_asked(alloc, world, selection)?;
    let format = format_in(options.json);
    let rows = selected_report(
        rt,
        alloc,
        world,
        selection,
        &cut,
        options.workers,
        &Open,
        format,
        options.brief,
    )?;
    let report = Report::Rows(rows);
    Ok(Told { report, some })
}

/// The report of the first cell that is asked for and allowed.
fn first<T: Threads + Sync>(
    rt: &T,
    alloc: Global,
    options: &Options,
    selection: &Selection,
    world: &World,
) -> Result<Told, RunFault>
    ensures work { OnOk result (CanWork options.now world.now) }
    ensures ok { IfOk result (λ answer. IsFirstSelectedReport selection.now world.now (report_text answer.report)) }
    ensures some { IfOk result (λ answer. IsTrue answer.some ↔ SelectsSome selection.now world.now) }
    ensures fault { IfErr result (λ fault. IsCellsRefusal options.now world.now fault) }
{
    let cut = cut_cells(alloc, options, world)?;
    let some = is_asked(alloc, world, selection)?;
    let text = first_selected_report(rt, alloc, world, selection, &cut, options.workers, &Open)?;
    let report = Report::Whole(text);
    Ok(Told { report, some })
}

/// The report that the options and the selection ask for, of this world.
fn asked_report<T: Threads + Sync>(
    rt: &T,
    alloc: Global,
    options: &Options,
    selection: &Selection,
    world: &World,
) -> Result<Told, RunFault>
    ensures ok { IfOk result (λ answer. IsSelectedOf options.now.task options.now selection.now world.now (report_text answer.report)) }
    ensures some { IfOk result (λ answer. IsTrue answer.some ↔ AsksSome options.now.task selection.now world.now) }
    ensures fault { IfErr result (λ fault. IsWorldRefusal options.now.task options.now world.now fault) }
{
    match options.task {
        Task::Matrix => matrix(rt, alloc, options, selection, world),
        Task::First => first(rt, alloc, options, selection, world),
        Task::Check | Task::Decide(..) => {
            let report = report(rt, alloc, options, world)?;
            Ok(Told { report, some: true })
        }
    }
}

/// The report that the options and the selection ask for, of the world of these bytes.
fn answer<T: Threads + Sync>(
    rt: &T,
    alloc: Global,
    options: &Options,
    selection: &Selection,
    bytes: Vec<u8>,
) -> Result<Told, RunFault>
    ensures ok { IfOk result (λ answer. IsToldOutput options.now selection.now bytes.items (report_text answer.report) answer.some) }
    ensures fault { IfErr result (λ fault. IsRefusal options.now bytes.items fault) }
{
    match World::from_vec_leaking(alloc, bytes) {
        Ok(world) => {
            let answer = asked_report(rt, alloc, options, selection, &world);
            // The run ends soon, as in a run without a selection.
            mem::forget(world);
            answer
        }
        Err(fault) => Err(RunFault::World(fault)),
    }
}

/// Reads a world, and writes what the options and the selection ask for: of `Matrix` and `First` the rows that are asked for
/// alone, each as it stands in the report of all. Everything else is as in [`crate::run`], with the same faults.
pub fn run_selected<T: Threads + Sync, R: Read, W: Write>(
    rt: &T,
    alloc: Global,
    options: &Options,
    selection: &Selection,
    reader: &mut R,
    writer: &mut W,
) -> Result<(), RunFault>
    ensures most { ConsumesAtMost (R.remaining reader.old) (R.remaining reader.new) 8388609 }
    ensures done { OnOk result (HasSelectedOutput options.now selection.now (R.remaining reader.old) (Appends (W.contents writer.old) (W.contents writer.new))) }
    ensures fault { IfErr result (λ fault. EndsSelectedBy options.now selection.now (R.remaining reader.old) (W.contents writer.old) (W.contents writer.new) fault) }
{
    match run_told(rt, alloc, options, selection, reader, writer) {
        Ok(_) => Ok(()),
        Err(fault) => Err(fault),
    }
}

/// Runs as [`run_selected`] does, and tells whether some request was asked about.
pub fn run_told<T: Threads + Sync, R: Read, W: Write>(
    rt: &T,
    alloc: Global,
    options: &Options,
    selection: &Selection,
    reader: &mut R,
    writer: &mut W,
) -> Result<bool, RunFault>
    ensures most { ConsumesAtMost (R.remaining reader.old) (R.remaining reader.new) 8388609 }
    ensures done { IfOk result (HasToldOutput options.now selection.now (R.remaining reader.old) (Appends (W.contents writer.old) (W.contents writer.new))) }
    ensures fault { IfErr result (λ fault. EndsSelectedBy options.now selection.now (R.remaining reader.old) (W.contents writer.old) (W.contents writer.new) fault) }
{
    let bytes = read_input(alloc, reader)?;
    let answer = answer(rt, alloc, options, selection, bytes)?;
    let mut kept = buffer(alloc)?;
    write_report(writer, &mut kept, &answer.report).map_err(|_| RunFault::Write)?;
    Ok(answer.some)
}
