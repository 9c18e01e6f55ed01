// The report on all requests of two worlds, made by many workers.
ghost use Rattle.std.specs.Prelude.{◌≡◌, ◌≤◌, ◌++◌, ⊤, Bool, IfOk, List, OnOk, option_map, string_bytes};
ghost use Rattle.std.specs.List.{flat_map};
ghost use Rattle.iam_layers.specs.Cell.{IsCell};
ghost use Rattle.iam_open_changes.specs.Code.Adds.{Adds, kinds_with, no_kinds};
ghost use Rattle.iam_open_changes.specs.Code.Parts.{AreRowsAt, IsPart, from_of, to_of, world_at};
ghost use Rattle.iam_open_changes.specs.Code.Texts.{texts_of};
ghost use Rattle.iam_open_changes.specs.InBoth.{IsThere};
ghost use Rattle.iam_open_changes.specs.Report.{IsAnyKeyChanges, IsAt};
ghost use Rattle.iam_open_changes.specs.Rows.{RowValue, report_text, rows_behind, rows_text};
ghost use Rattle.iam_row.specs.Report.{HasTexts};
ghost use Rattle.iam_world.specs.World.{world_cells};

use crate::numbers::{Both, Numbers};
use crate::row::{Texts, opening};
use crate::rows::{Kinds, Part};
use iam_changes::{Finder, Requests};
use iam_crew::{Bound, Crew, Gate, gather};
use iam_layers::{OutOfMemory, World};
use iam_row::{Format, Position, closing};
use std::alloc::Global;
use std::thread::Threads;

/// How many tiles a crew works off at most.
const TILES: u64 = 4096;

/// A report, and which kinds of rows it has.
#[derive(Debug, Drop)]
pub struct ChangesAnswer {
    pub text: Vec<u8>,
    pub kinds: Kinds,
}

/// Whose cells are looked at.
#[derive(Clone, Copy, Debug, PartialEq, Eq)]
pub enum Side {
    /// Those of the world after.
    After,
    /// Those of the world before, whose requests the world after does not have.
    Before,
}

/// Those who make the rows of the cells of a world, so many cells a tile.
#[derive(Clone, Copy)]
struct Cells<'a> {
    requests: &'a Requests<'a>,
    side: Side,
    length: u64,
    format: Format,
    brief: bool,
}

impl<'a> Crew for Cells<'a> {
    type Output = Part;

    type Tools = ();

    ghost fits = { λ _ _. ⊤ };

    ghost takes = { λ _ _. ⊤ };

    ghost gives = { λ crew tile output _. IsPart crew.format crew.brief crew.side crew.requests.now.before crew.requests.now.after
        (from_of (world_at crew.side crew.requests.now.before crew.requests.now.after) crew.length tile)
        (to_of (world_at crew.side crew.requests.now.before crew.requests.now.after) crew.length tile)
        (string_bytes output.text) output.kinds };

    fn tools(&self, _alloc: Global) -> Result<(), OutOfMemory> {
        Ok(())
    }

    fn work(
        &self,
        alloc: Global,
        _tools: &mut (),
        _bound: &mut Bound<'_>,
        tile: u64,
    ) -> Result<Part, OutOfMemory> {
        let cells = world_at(self.requests, self.side).cells();
        let from = tile.saturating_mul(self.length).min(cells);
        let to = from.saturating_add(self.length).min(cells);
        part(alloc, *self, from, to)
    }

    ghost lasts = { λ _ _ _ _ _ _ given. given };
}

/// The world of a side.
fn world_at<'a>(requests: &Requests<'a>, side: Side) -> &'a World
    ensures { result.now ≡ world_at side requests.now.before requests.now.after }
{
    match side {
        Side::After => requests.after(),
        Side::Before => requests.before(),
    }
}

/// The rows of the cells from one up to another.
fn part(alloc: Global, cells: Cells<'_>, from: u64, to: u64) -> Result<Part, OutOfMemory>
    requires order { from ≤ to }
    requires inside { to ≤ world_cells (world_at cells.side cells.requests.now.before cells.requests.now.after) }
    ensures { IfOk result (λ part. IsPart cells.entry.format cells.entry.brief cells.entry.side cells.entry.requests.now.before
        cells.entry.requests.now.after from to (string_bytes part.text) part.kinds) }
{
    let world = world_at(cells.requests, cells.side);
    let mut rows = Part::new(alloc);
    let mut at = Position::of(world, from);
    while at.cell < to {
        add_cell(alloc, cells, at, &mut rows)?;
        at = at.next_in(world);
    }
    Ok(rows)
}

/// Puts the rows of a cell behind others.
fn add_cell(
    alloc: Global,
    cells: Cells<'_>,
    at: Position,
    rows: &mut Part,
) -> Result<(), OutOfMemory>
    requires { IsCell (world_at cells.side cells.requests.now.before cells.requests.now.after) at.cell at.principal at.action at.resource }
    ensures { OnOk result ((entry : List RowValue)
        × AreRowsAt cells.entry.side cells.entry.requests.now.before cells.entry.requests.now.after at.cell entry
        × Adds cells.entry.format cells.entry.brief rows.old entry rows.new) }
{
    match cells.side {
        Side::After => add_after(alloc, cells.requests, cells.format, cells.brief, at, rows),
        Side::Before => add_before(alloc, cells.requests, cells.format, cells.brief, at, rows),
    }
}

/// Puts the rows of a cell of the world after behind others.
fn add_after(
    alloc: Global,
    requests: &Requests<'_>,
    format: Format,
    brief: bool,
    at: Position,
    rows: &mut Part,
) -> Result<(), OutOfMemory>
    requires { IsCell requests.now.after at.cell at.principal at.action at.resource }
    ensures { OnOk result ((entry : List RowValue) × AreRowsAt Side.After requests.entry.now.before requests.entry.now.after at.cell entry
        × Adds format brief rows.old entry rows.new) }
{
    let texts = texts_at(requests.after(), at);
    let was = found_in(requests.to_before(), at, texts);
    let now = Some(Numbers {
        principal: at.principal,
        action: at.action,
        resource: at.resource,
    });
    let both = Both {
        before: requests.before(),
        after: requests.after(),
        was,
        now,
    };
    rows.add_request(alloc, format, brief, both, texts)
}

/// Puts the rows of a cell of the world before behind others, if the world after does not have its request.
fn add_before(
    alloc: Global,
    requests: &Requests<'_>,
    format: Format,
    brief: bool,
    at: Position,
    rows: &mut Part,
) -> Result<(), OutOfMemory>
    requires { IsCell requests.now.before at.cell at.principal at.action at.resource }
    ensures { OnOk result ((entry : List RowValue) × AreRowsAt Side.Before requests.entry.now.before requests.entry.now.after at.cell entry
        × Adds format brief rows.old entry rows.new) }
{
    let texts = texts_at(requests.before(), at);
    let now = found_in(requests.to_after(), at, texts);
    if now.is_some() {
        return Ok(());
    }
    let was = Some(Numbers {
        principal: at.principal,
        action: at.action,
        resource: at.resource,
    });
    let both = Both {
        before: requests.before(),
        after: requests.after(),
        was,
        now,
    };
    rows.add_request(alloc, format, brief, both, texts)
}

/// The texts of the request of a cell.
fn texts_at(world: &World, at: Position) -> Texts<'_>
    requires { IsCell world.now at.cell at.principal at.action at.resource }
    ensures { HasTexts world.entry.now at.principal at.action at.resource (texts_of result) }
{
    Texts {
        principal: world.principal_text(at.principal),
        action: world.action_text(at.action),
        resource: world.resource_text(at.resource),
    }
}

/// The numbers in the other world of the request of a cell with these texts, if it has it.
fn found_in(finder: &Finder<'_>, at: Position, texts: Texts<'_>) -> Option<Numbers>
    requires cell { IsCell finder.now.world at.cell at.principal at.action at.resource }
    requires texts { HasTexts finder.now.world at.principal at.action at.resource (texts_of texts) }
    ensures at { IsAt finder.now.other (texts_of texts.entry) result }
    ensures there { IsThere finder.now.other result }
{
    let _texts = texts;
    numbers_of(finder.find(at))
}

fn numbers_of(found: Option<(u64, u64, u64)>) -> Option<Numbers>
    ensures { result ≡ option_map (λ it. record { principal = it.0; action = it.1; resource = it.2 }) found }
{
    match found {
        Some((principal, action, resource)) => Some(Numbers {
            principal,
            action,
            resource,
        }),
        None => None,
    }
}

/// The rows of the cells of a world.
fn part_of<R: Threads + Sync, G: Gate + Sync>(
    rt: &R,
    alloc: Global,
    requests: &Requests<'_>,
    side: Side,
    workers: u32,
    gate: &G,
    format: Format,
    brief: bool,
) -> Result<Vec<Part>, OutOfMemory>
    requires some { 1 ≤ workers }
    requires few { workers ≤ 64 }
    ensures { IfOk result (λ parts. IsPart format brief side requests.now.before requests.now.after 0
        (world_cells (world_at side requests.now.before requests.now.after))
        (flat_map (λ part. string_bytes part.text) parts.items) (kinds_with no_kinds parts.items)) }
{
    let cells = world_at(requests, side).cells();
    let length = cells / TILES + 1;
    let crew = Cells {
        requests,
        side,
        length,
        format,
        brief,
    };
    let gathered = gather(rt, alloc, &crew, cells / length + 1, workers, gate)?;
    Ok(gathered.outputs)
}

/// Puts parts behind a text and kinds.
fn put_parts(whole: &mut Part, parts: &[Part]) -> Result<(), OutOfMemory>
    ensures text { OnOk result (string_bytes whole.new.text ≡ string_bytes whole.old.text ++ flat_map (λ part. string_bytes part.text) parts.now) }
    ensures kinds { OnOk result (whole.new.kinds ≡ kinds_with whole.old.kinds parts.now) }
{
    for part in parts {
        whole.text.push_str(part.text.as_str())?;
        whole.kinds = whole.kinds.joined(part.kinds);
    }
    Ok(())
}

/// The report of rows that stand behind others, between what stands before and after them.
fn report_text(
    alloc: Global,
    format: Format,
    brief: bool,
    rows: &[u8],
) -> Result<Vec<u8>, OutOfMemory>
    ensures { IfOk result (λ text. (all : List RowValue) → rows.now ≡ rows_behind format brief all
        → text.items ≡ report_text format brief all) }
{
    let mut text = Vec::from_slice(alloc, opening(format, brief).as_bytes())?;
    text.extend_from_slice(without_first(format, rows))?;
    text.extend_from_slice(closing(format).as_bytes())?;
    Ok(text)
}

/// Rows without what would stand before the first, were it not the first.
fn without_first(format: Format, rows: &[u8]) -> &[u8]
    ensures { (brief : Bool) (all : List RowValue) → rows.entry.now ≡ rows_behind format brief all → result.now ≡ rows_text format brief all }
{
    if format == Format::Csv {
        return rows;
    }
    match rows.split_first() {
        Some((_, rest)) => rest,
        None => rows,
    }
}

/// The report on all requests of two worlds: of each that of a gain, that of a loss, each in a context that is shown, and whether
/// something of it is not known; and which kinds of rows there are. A request without a row `gained` and without a row `open` is gained in
/// none of the contexts in question, and so it is of losses. The cells are worked off by 1 to 64 workers; the gate is told before each that
/// a worker begins.
///
/// AWS IAM User Guide, "AWS global condition context keys" and "Policy evaluation logic".
pub fn any_key_changes_report<R: Threads + Sync, G: Gate + Sync>(
    rt: &R,
    alloc: Global,
    requests: &Requests<'_>,
    workers: u32,
    gate: &G,
    format: Format,
    brief: bool,
) -> Result<ChangesAnswer, OutOfMemory>
    requires some { 1 ≤ workers }
    requires few { workers ≤ 64 }
    ensures { IfOk result (λ answer. IsAnyKeyChanges format brief requests.now.before requests.now.after answer.text.items answer.kinds) }
{
    let firsts = part_of(
        rt,
        alloc,
        requests,
        Side::After,
        workers,
        gate,
        format,
        brief,
    )?;
    let lasts = part_of(
        rt,
        alloc,
        requests,
        Side::Before,
        workers,
        gate,
        format,
        brief,
    )?;
    let mut whole = Part::new(alloc);
    put_parts(&mut whole, firsts.as_slice())?;
    put_parts(&mut whole, lasts.as_slice())?;
    Ok(ChangesAnswer {
        text: report_text(alloc, format, brief, whole.text.as_bytes())?,
        kinds: whole.kinds,
    })
}
