// The header and the row of one cell.
ghost use Rattle.std.specs.Prelude.{◌≡◌, ℕ, ◌<◌, ◌++◌, IfOk, length, string_bytes};
ghost use Rattle.iam_layers.specs.Cell.{IsCell};
ghost use Rattle.iam_world.specs.World.{world_cells};
ghost use Rattle.iam_row.specs.Code.Parts.{HasPieces, IsRowOf, pieces_in};
ghost use Rattle.iam_row.specs.CsvRow.{IsCsvRow};
ghost use Rattle.iam_row.specs.Piece.{row_text};
ghost use Rattle.iam_row.specs.Report.{brief_layout, full_layout};
ghost use Rattle.iam_row.specs.declared.quoted.Format.TheVariants as format;

use crate::piece::opening;
use crate::quoted::{Format, action_piece, principal_piece, resource_piece};
use crate::tail::{Tail, bare};
use iam_layers::{Decision, Verdict, World};
use iam_text::{OutOfMemory, Text};
use std::alloc::Global;

/// The texts of a request as they stand in a row of CSV.
#[derive(Drop)]
struct Pieces {
    principal: Text,
    action: Text,
    resource: Text,
}

fn pieces_at(alloc: Global, world: &World, p: u64, a: u64, r: u64) -> Result<Pieces, OutOfMemory>
    requires principal { p < length world.now.principals }
    requires action { a < length world.now.actions }
    requires resource { r < length world.now.resources }
    ensures { IfOk result (λ pieces. HasPieces world.now p a r pieces) }
{
    Ok(Pieces {
        principal: principal_piece(alloc, Format::Csv, world.principal_text(p))?,
        action: action_piece(alloc, Format::Csv, world.action_text(a))?,
        resource: resource_piece(alloc, Format::Csv, world.resource_text(r))?,
    })
}

/// A text and a row behind it.
fn row_behind(
    alloc: Global,
    front: &str,
    cell: u64,
    pieces: &Pieces,
    tail: &Tail,
) -> Result<String, OutOfMemory>
    ensures { IfOk result (λ text. string_bytes text ≡ front.now ++ row_text format.Csv cell (pieces_in pieces.now) tail.now) }
{
    let principal = pieces.principal.as_str();
    let action = pieces.action.as_str();
    let resource = pieces.resource.as_str();
    let back = tail.back.as_str();
    format!(in alloc; "{front}{cell}{principal}{action}{resource}{back}")
}

/// The header and the row of a cell, in full or in brief.
fn row(
    alloc: Global,
    world: &World,
    cell: u64,
    brief: bool,
    verdict: &Verdict,
) -> Result<Vec<u8>, OutOfMemory>
    requires { cell < world_cells world.now }
    ensures { IfOk result (λ text. (p a r : ℕ) → IsCell world.now cell p a r → IsRowOf world.now cell p a r brief verdict.now text.items) }
{
    let (p, a, r) = world.triple(cell);
    let pieces = pieces_at(alloc, world, p, a, r)?;
    let tail = Tail::of(alloc, Format::Csv, brief, verdict)?;
    let text = row_behind(alloc, opening(Format::Csv, brief), cell, &pieces, &tail)?;
    Ok(text.into_bytes())
}

/// The header of a report and the row of a cell with this verdict, as CSV: fields joined by commas and put in double
/// quotes where one has to, each row ended by a line feed.
///
/// `OutOfMemory` comes where the text finds no memory; there is no other refusal.
pub fn csv_row(
    alloc: Global,
    world: &World,
    cell: u64,
    verdict: &Verdict,
) -> Result<Vec<u8>, OutOfMemory>
    requires { cell < world_cells world.now }
    ensures { IfOk result (λ text. (p a r : ℕ) → IsCell world.now cell p a r
        → IsCsvRow full_layout world.now cell p a r verdict.now text.items) }
{
    row(alloc, world, cell, false, verdict)
}

/// The header of a brief report and the row of a cell with this decision, as CSV. `OutOfMemory` comes where the text
/// finds no memory; there is no other refusal.
pub fn csv_row_brief(
    alloc: Global,
    world: &World,
    cell: u64,
    decision: Decision,
) -> Result<Vec<u8>, OutOfMemory>
    requires { cell < world_cells world.now }
    ensures { IfOk result (λ text. (p a r : ℕ) → IsCell world.now cell p a r
        → IsCsvRow brief_layout world.now cell p a r decision text.items) }
{
    row(alloc, world, cell, true, &bare(alloc, decision))
}
