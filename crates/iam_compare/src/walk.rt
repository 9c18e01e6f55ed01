// The rows of changes among the requests of each tile.
ghost use Rattle.std.specs.Prelude.{◌≡◌, ◌↔◌, true, ◌+◌, ◌<◌, ◌≤◌, ◌^◌, ℕ, IfOk, IsTrue, None, OnOk, Some, length, option_map, slice_index};
ghost use Rattle.iam_decision.specs.declared.verdict.Verdict.{Verdict};
ghost use Rattle.iam_world.specs.World.{world_cells};
ghost use Rattle.iam_decision.specs.Applicable.{ApplicableValue};
ghost use Rattle.iam_layers.specs.Cell.{IsApplicableAt, IsCell};
ghost use Rattle.iam_row.specs.Changes.{is_allowed};
ghost use Rattle.iam_row.specs.Report.{CellTexts, IsCellTexts};
ghost use Rattle.iam_changes.specs.Change.{AreUnlike};
ghost use Rattle.iam_changes.specs.Code.Kept.{change_by};
ghost use Rattle.iam_compare.specs.Code.Walk.{AddsRow, AreEnginesOf, Gathers, IsCrew, IsLeftRow, IsPartOf, all_cells, asked_of, with_row, IsTileOf, reached};

use iam_changes::{Change, Decisions, Gathered, Part, Requests, Verdicts, change_of, differ};
use iam_crew::{Bound, Crew};
use iam_layers::{Decision, Verdict, one_triple};
use iam_matrix::{Asks, ClassEngine, Cut, Survey, past_row};
use iam_row::{Format, Position};
use iam_selection::Picker;
use iam_text::OutOfMemory;
use std::alloc::Global;

/// What is asked of a report: whether for all changes, by how many workers it is made, and what its rows are.
#[derive(Clone, Copy)]
pub struct Asked {
    pub all: bool,
    pub workers: u32,
    pub format: Format,
    pub brief: bool,
}

/// Those who make the rows of changes: of the requests of two worlds, by what was found of each world.
#[derive(Clone, Copy)]
pub struct Workers<'a> {
    pub requests: &'a Requests<'a>,
    pub before: &'a Survey<'a>,
    pub after: &'a Survey<'a>,
    pub pick_before: &'a Picker<'a>,
    pub pick_after: &'a Picker<'a>,
    pub cut: &'a Cut,
    pub asked: Asked,
}

impl<'a> Crew for Workers<'a> {
    ghost use Rattle.iam_matrix.specs.Cut.{start_of};

    type Output = Part;

    type Tools = Vec<ClassEngine<'a>>;

    ghost fits = { λ crew engines. AreEnginesOf crew engines.items };

    ghost takes = { λ crew tile. IsTileOf crew tile };

    ghost gives = { λ crew tile output _. IsPartOf (asked_of crew) crew.requests.now crew.asked.format crew.asked.brief
        (reached crew.requests.now (start_of crew.cut.now tile)) (reached crew.requests.now (start_of crew.cut.now tile + slice_index crew.cut.now tile)) output };

    fn tools(&self, alloc: Global) -> Result<Vec<ClassEngine<'a>>, OutOfMemory> {
        // The engines of both worlds share the bounds on what is kept.
        let engines = self.asked.workers.saturating_mul(2);
        let before = ClassEngine::surveyed(alloc, self.before, engines)?;
        let after = ClassEngine::surveyed(alloc, self.after, engines)?;
        let mut both = Vec::with_capacity(alloc, 2)?;
        both.push(before)?;
        both.push(after)?;
        Ok(both)
    }

    fn work(
        &self,
        alloc: Global,
        engines: &mut Vec<ClassEngine<'a>>,
        _bound: &mut Bound<'_>,
        tile: u64,
    ) -> Result<Part, OutOfMemory> {
        // There are at most 33,554,432 requests, so the numbers fit.
        let _count = self.requests.count();
        let tile = self.cut.cells(tile);
        let from = self.requests.reach(tile.from);
        let to = self.requests.reach(tile.from + tile.count);
        part_of(alloc, self, engines, from, to)
    }

    ghost lasts = { λ _ _ _ _ _ _ given. given };
}

/// The rows among the cells of the world AFTER and of the world BEFORE behind it, from one up to another.
fn part_of(
    alloc: Global,
    crew: &Workers<'_>,
    engines: &mut Vec<ClassEngine<'_>>,
    from: u64,
    to: u64,
) -> Result<Part, OutOfMemory>
    requires crew { IsCrew crew.now }
    requires tools { AreEnginesOf crew.now engines.old.items }
    requires order { from ≤ to }
    requires cells { to ≤ all_cells crew.now.requests.now }
    ensures part { IfOk result (IsPartOf (asked_of crew.now) crew.now.requests.now crew.now.asked.format crew.now.asked.brief from to) }
    ensures tools { AreEnginesOf crew.now engines.new.items }
{
    // A world has at most 16,777,216 cells, so the numbers fit.
    let first = crew.requests.after().cells();
    let _last = crew.requests.before().cells();
    let mut rows = Gathered::new(alloc, from)?;
    if to <= first {
        walk_after(alloc, crew, engines, from, to, &mut rows)?;
        return rows.part(alloc, crew.asked.format, crew.asked.brief);
    }
    if from >= first {
        walk_before(
            alloc,
            crew,
            &mut engines[0],
            from - first,
            to - first,
            &mut rows,
        )?;
        return rows.part(alloc, crew.asked.format, crew.asked.brief);
    }
    walk_after(alloc, crew, engines, from, first, &mut rows)?;
    walk_before(alloc, crew, &mut engines[0], 0, to - first, &mut rows)?;
    rows.part(alloc, crew.asked.format, crew.asked.brief)
}

/// Adds the rows of cells of AFTER, from one up to another.
fn walk_after(
    alloc: Global,
    crew: &Workers<'_>,
    engines: &mut Vec<ClassEngine<'_>>,
    from: u64,
    end: u64,
    rows: &mut Gathered,
) -> Result<(), OutOfMemory>
    requires crew { IsCrew crew.now }
    requires tools { AreEnginesOf crew.now engines.old.items }
    requires order { from ≤ end }
    requires end { end ≤ world_cells crew.now.requests.now.after }
    requires rows { rows.old.end ≤ from }
    requires few { length rows.old.rows ≤ from }
    ensures rows { OnOk result (Gathers (asked_of crew.now) crew.now.requests.now crew.now.asked.brief from end rows.old rows.new) }
    ensures tools { AreEnginesOf crew.now engines.new.items }
{
    let world = crew.requests.after();
    let _cells = world.cells();
    let mut at = Position::of(world, from);
    while at.cell < end {
        if !crew.pick_after.asks_row(at) {
            at = past_row(world, at, end);
            continue;
        }
        visit_after(alloc, crew, engines, at, rows)?;
        at = at.next_in(world);
    }
    Ok(())
}

/// Adds the rows of cells of BEFORE whose requests AFTER does not have, from one up to another.
fn walk_before(
    alloc: Global,
    crew: &Workers<'_>,
    before: &mut ClassEngine<'_>,
    from: u64,
    end: u64,
    rows: &mut Gathered,
) -> Result<(), OutOfMemory>
    requires crew { IsCrew crew.now }
    requires tools { before.old.world ≡ crew.now.before.now }
    requires order { from ≤ end }
    requires end { end ≤ world_cells crew.now.requests.now.before }
    requires rows { rows.old.end ≤ world_cells crew.now.requests.now.after + from }
    requires few { length rows.old.rows ≤ world_cells crew.now.requests.now.after + from }
    ensures rows { OnOk result (Gathers (asked_of crew.now) crew.now.requests.now crew.now.asked.brief
        (world_cells crew.now.requests.now.after + from) (world_cells crew.now.requests.now.after + end) rows.old rows.new) }
    ensures tools { before.new.world ≡ crew.now.before.now }
{
    one_triple();
    let world = crew.requests.before();
    let _cells = (world.cells(), crew.requests.after().cells());
    if crew.requests.to_after().finds_all() {
        return Ok(());
    }
    let mut at = Position::of(world, from);
    while at.cell < end {
        if skips_row(crew, at) {
            at = past_row(world, at, end);
            continue;
        }
        visit_before(alloc, crew, before, at, rows)?;
        at = at.next_in(world);
    }
    Ok(())
}

/// `true` only where no request of a cell's principal in BEFORE for its action has a row there, whatever the resource.
#[inline(always)]
fn skips_row(crew: &Workers<'_>, at: Position) -> bool
    requires crew { IsCrew crew.now }
    requires cell { IsCell crew.now.requests.now.before at.cell at.principal at.action at.resource }
    ensures { IsTrue result → (cell r : ℕ) (texts : CellTexts) → IsCell crew.now.requests.now.before cell at.principal at.action r
        → IsCellTexts crew.now.requests.now.before cell texts
        → IsLeftRow (asked_of crew.now) crew.now.requests.now.before crew.now.requests.now.after texts None }
{
    if !crew.pick_before.asks_row(at) {
        return true;
    }
    crew.requests.to_after().finds_row(at)
}

/// Adds the row of a cell of AFTER, where its request is selected and has changed.
#[inline(always)]
fn visit_after(
    alloc: Global,
    crew: &Workers<'_>,
    engines: &mut Vec<ClassEngine<'_>>,
    at: Position,
    rows: &mut Gathered,
) -> Result<(), OutOfMemory>
    requires crew { IsCrew crew.now }
    requires tools { AreEnginesOf crew.now engines.old.items }
    requires cell { IsCell crew.now.requests.now.after at.cell at.principal at.action at.resource }
    requires small { at.cell < 2 ^ 32 }
    requires rows { rows.old.end ≤ at.cell }
    requires few { length rows.old.rows ≤ at.cell }
    ensures rows { OnOk result (Gathers (asked_of crew.now) crew.now.requests.now crew.now.asked.brief at.cell (at.cell + 1) rows.old rows.new) }
    ensures tools { AreEnginesOf crew.now engines.new.items }
{
    if !crew.pick_after.asks(at) {
        return Ok(());
    }
    let number = engines[1].find(alloc, at.principal, at.action, at.resource)?;
    let Some((p, a, r)) = crew.requests.to_before().find(at) else {
        let says = Some(engines[1].verdict(number));
        return add_said(
            alloc,
            crew.asked.brief,
            at.cell,
            number,
            None,
            says,
            false,
            rows,
        );
    };
    let other = engines[0].find(alloc, p, a, r)?;
    let hint = number ^ other.rotate_left(5);
    let said = engines[0].verdict(other);
    let says = engines[1].verdict(number);
    let differs = differ_at(crew, at, p, r, said, says);
    add_said(
        alloc,
        crew.asked.brief,
        at.cell,
        hint,
        Some(said),
        Some(says),
        differs,
        rows,
    )
}

/// Whether all changes are asked for, and something else is said of the request of a cell of AFTER than of that of principal p for resource
/// r of BEFORE.
fn differ_at(
    crew: &Workers<'_>,
    at: Position,
    p: u64,
    r: u64,
    said: &Verdict,
    says: &Verdict,
) -> bool
    requires cell { IsCell crew.now.requests.now.after at.cell at.principal at.action at.resource }
    requires principal { p < length crew.now.requests.now.before.principals }
    requires resource { r < length crew.now.requests.now.before.resources }
    ensures { (one other : ApplicableValue) → IsApplicableAt crew.now.requests.now.before p r one
        → IsApplicableAt crew.now.requests.now.after at.principal at.resource other
        → IsTrue result ↔ ((crew.now.asked.all ≡ true)
        × AreUnlike (record { verdict = said.now; policies = one }) (record { verdict = says.now; policies = other })) }
{
    if !crew.asked.all {
        return false;
    }
    let before = crew.requests.before().applicable(p, r);
    let after = crew.requests.after().applicable(at.principal, at.resource);
    differ(said, says, &before, &after)
}

/// Adds the row of a cell of BEFORE whose request AFTER does not have, where it is selected and has changed.
#[inline(always)]
fn visit_before(
    alloc: Global,
    crew: &Workers<'_>,
    before: &mut ClassEngine<'_>,
    at: Position,
    rows: &mut Gathered,
) -> Result<(), OutOfMemory>
    requires crew { IsCrew crew.now }
    requires tools { before.old.world ≡ crew.now.before.now }
    requires cell { IsCell crew.now.requests.now.before at.cell at.principal at.action at.resource }
    requires small { world_cells crew.now.requests.now.after + at.cell < 2 ^ 32 }
    requires rows { rows.old.end ≤ world_cells crew.now.requests.now.after + at.cell }
    requires few { length rows.old.rows ≤ world_cells crew.now.requests.now.after + at.cell }
    ensures rows { OnOk result (Gathers (asked_of crew.now) crew.now.requests.now crew.now.asked.brief
        (world_cells crew.now.requests.now.after + at.cell) (world_cells crew.now.requests.now.after + at.cell + 1) rows.old rows.new) }
    ensures tools { before.new.world ≡ crew.now.before.now }
{
    if !crew.pick_before.asks(at) {
        return Ok(());
    }
    if crew.requests.to_after().find(at).is_some() {
        return Ok(());
    }
    let cell = crew.requests.after().cells() + at.cell;
    let number = before.find(alloc, at.principal, at.action, at.resource)?;
    let said = Some(before.verdict(number));
    add_said(
        alloc,
        crew.asked.brief,
        cell,
        number,
        said,
        None,
        false,
        rows,
    )
}

/// Adds the row of a cell, where what is said of its request before and after is a change. That both worlds say something else of it
/// counts where `differs` says so.
#[inline(always)]
fn add_said(
    alloc: Global,
    brief: bool,
    cell: u64,
    hint: usize,
    before: Option<&Verdict>,
    after: Option<&Verdict>,
    differs: bool,
    rows: &mut Gathered,
) -> Result<(), OutOfMemory>
    requires rows { rows.old.end ≤ cell }
    requires few { length rows.old.rows ≤ cell }
    requires cell { cell < 2 ^ 32 }
    ensures { OnOk result (AddsRow brief cell (option_map (λ verdict. verdict.now) before.entry) (option_map (λ verdict. verdict.now) after.entry)
        (change_by (is_allowed (option_map (λ verdict. verdict.now) before.entry)) (is_allowed (option_map (λ verdict. verdict.now) after.entry)) differs)
        rows.old rows.new) }
{
    match change_of(before, after, differs) {
        Some(change) => add(alloc, brief, cell, change, hint, before, after, rows),
        None => Ok(()),
    }
}

/// Adds the row of a cell.
#[inline(never)]
fn add(
    alloc: Global,
    brief: bool,
    cell: u64,
    change: Change,
    hint: usize,
    before: Option<&Verdict>,
    after: Option<&Verdict>,
    rows: &mut Gathered,
) -> Result<(), OutOfMemory>
    requires rows { rows.old.end ≤ cell }
    requires few { length rows.old.rows ≤ cell }
    requires cell { cell < 2 ^ 32 }
    ensures { OnOk result (rows.new ≡ with_row brief cell (option_map (λ verdict. verdict.now) before.entry) (option_map (λ verdict. verdict.now) after.entry) change rows.old) }
{
    if brief {
        let before = decision_of(before);
        let after = decision_of(after);
        rows.add(alloc, cell, change, hint, &Decisions { before, after })
    } else {
        rows.add(alloc, cell, change, hint, &Verdicts { before, after })
    }
}

/// The decision of what is said.
fn decision_of(said: Option<&Verdict>) -> Option<Decision>
    ensures { result ≡ option_map (λ verdict. verdict.now.decision) said.entry }
{
    match said {
        Some(verdict) => Some(verdict.decision),
        None => None,
    }
}
