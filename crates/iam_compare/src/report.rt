// The report of what has changed.
ghost use Rattle.std.specs.Prelude.{◌≡◌, ◌≤◌, ◌↔◌, IfOk, sum};
ghost use Rattle.iam_matrix.specs.Workers.{IsUnlawful};
ghost use Rattle.iam_changes.specs.Code.Pieces.{report_text};
ghost use Rattle.iam_compare.specs.Code.Walk.{AreParts, IsCrew, asked_of};
ghost use Rattle.iam_changes.specs.Report.{IsChangesReport};

use crate::walk::{Asked, Workers};
use iam_changes::{ChangesText, Part, Requests, pieces_of};
use iam_crew::{Gate, gather};
use iam_layers::one_triple;
use iam_matrix::{Cut, Index, MatrixFault, Survey, is_unlawful, survey_of};
use iam_row::Format;
use iam_selection::{Picker, Selection, index_of};
use iam_text::OutOfMemory;
use std::alloc::Global;
use std::thread::Threads;

/// The report of what has changed from one world to another, of the requests that a selection selects, whose decisions play no
/// part: those that are gained or lost, and where `all` are asked for also those that are as allowed as before by another
/// verdict. It is written by [`ChangesText::write_to`]. What is not selected is not decided. The tiles of the cut, which has to be
/// one of the requests of both worlds, the workers and the gate are as in [`iam_matrix::matrix`], and so are the faults.
pub fn changes_report<R: Threads + Sync, G: Gate + Sync>(
    rt: &R,
    alloc: Global,
    requests: &Requests<'_>,
    selection: &Selection,
    all: bool,
    cut: &Cut,
    workers: u32,
    gate: &G,
    format: Format,
    brief: bool,
) -> Result<ChangesText, MatrixFault>
    requires { sum cut.now ≡ requests.now.count }
    ensures ok { IfOk result (λ report. IsChangesReport format brief (record { selection = selection.now; all = all }) requests.now.before requests.now.after (report_text report) report.kinds) }
    ensures workers { (result ≡ Err MatrixFault.Workers) ↔ IsUnlawful workers }
{
    if is_unlawful(workers) {
        return Err(MatrixFault::Workers);
    }
    one_triple();
    let _count = requests.count();
    let cells = requests.after().cells();
    let before = pieces_of(alloc, requests.before(), format)?;
    let after = pieces_of(alloc, requests.after(), format)?;
    let asked = Asked {
        all,
        workers,
        format,
        brief,
    };
    let parts = picked_parts(rt, alloc, requests, selection, cut, gate, asked)?;
    Ok(ChangesText::of(before, after, cells, brief, parts))
}

/// The rows of all tiles that are asked for, in the order of tiles.
fn picked_parts<'a, R: Threads + Sync, G: Gate + Sync>(
    rt: &R,
    alloc: Global,
    requests: &'a Requests<'a>,
    selection: &'a Selection,
    cut: &Cut,
    gate: &G,
    asked: Asked,
) -> Result<Vec<Part>, OutOfMemory>
    requires some { 1 ≤ asked.workers }
    requires few { asked.workers ≤ 64 }
    requires cut { sum cut.now ≡ requests.now.count }
    ensures { IfOk result (λ parts. AreParts (record { selection = selection.now; all = asked.all }) requests.now asked.format asked.brief cut.now parts.items) }
{
    let pick_before = Picker::of(alloc, requests.before(), selection)?;
    let pick_after = Picker::of(alloc, requests.after(), selection)?;
    let index_before = index_of(alloc, requests.before(), pick_before.is_broad())?;
    let index_after = index_of(alloc, requests.after(), pick_after.is_broad())?;
    indexed_parts(
        rt,
        alloc,
        requests,
        &index_before,
        &index_after,
        &pick_before,
        &pick_after,
        cut,
        gate,
        asked,
    )
}

/// The same, where both worlds have an index, and what is selected in each is known.
fn indexed_parts<R: Threads + Sync, G: Gate + Sync>(
    rt: &R,
    alloc: Global,
    requests: &Requests<'_>,
    index_before: &Index<'_>,
    index_after: &Index<'_>,
    pick_before: &Picker<'_>,
    pick_after: &Picker<'_>,
    cut: &Cut,
    gate: &G,
    asked: Asked,
) -> Result<Vec<Part>, OutOfMemory>
    requires some { 1 ≤ asked.workers }
    requires few { asked.workers ≤ 64 }
    requires before { index_before.now ≡ requests.now.before }
    requires after { index_after.now ≡ requests.now.after }
    requires pick_before { pick_before.now ≡ record { world = requests.now.before; selection = pick_after.now.selection } }
    requires pick_after { pick_after.now.world ≡ requests.now.after }
    requires cut { sum cut.now ≡ requests.now.count }
    ensures { IfOk result (λ parts. AreParts (record { selection = pick_after.now.selection; all = asked.all }) requests.now asked.format asked.brief cut.now parts.items) }
{
    let workers = asked.workers;
    let before = surveyed(rt, alloc, index_before, workers, pick_before.is_broad());
    let after = surveyed(rt, alloc, index_after, workers, pick_after.is_broad());
    let crew = Workers {
        requests,
        before: &before,
        after: &after,
        pick_before,
        pick_after,
        cut,
        asked,
    };
    gathered_parts(rt, alloc, &crew, gate)
}

/// What a crew makes of all tiles of its cut, in the order of tiles.
fn gathered_parts<R: Threads + Sync, G: Gate + Sync>(
    rt: &R,
    alloc: Global,
    crew: &Workers<'_>,
    gate: &G,
) -> Result<Vec<Part>, OutOfMemory>
    requires some { 1 ≤ crew.now.asked.workers }
    requires few { crew.now.asked.workers ≤ 64 }
    requires crew { IsCrew crew.now }
    requires cut { sum crew.now.cut.now ≡ crew.now.requests.now.count }
    ensures { IfOk result (λ parts. AreParts (asked_of crew.now) crew.now.requests.now crew.now.asked.format crew.now.asked.brief crew.now.cut.now parts.items) }
{
    let tiles = crew.cut.lengths().len() as u64;
    let gathered = gather(rt, alloc, crew, tiles, crew.asked.workers, gate)?;
    Ok(gathered.outputs)
}

/// What the requests of a world's pairs share, where many pairs are looked at; else nothing.
fn surveyed<'a, R: Threads + Sync>(
    rt: &R,
    alloc: Global,
    index: &'a Index<'a>,
    workers: u32,
    is_broad: bool,
) -> Survey<'a>
    requires some { 1 ≤ workers }
    requires few { workers ≤ 64 }
    ensures { result ≡ index.entry.now }
{
    if is_broad {
        survey_of(rt, alloc, index, workers)
    } else {
        Survey::of(index, 1, Vec::new(alloc))
    }
}
