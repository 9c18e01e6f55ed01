// Rows in brief, put together from texts with what stands beside them: for a report each of these is made once.
ghost use Rattle.std.specs.Prelude.{◌≡◌, ◌++◌, ◌∷◌, [], IfOk, OnOk, string_bytes, true};
ghost use Rattle.iam_layers.specs.Cell.{IsCell};
ghost use Rattle.iam_open.specs.Code.Parts.{back_text, comma_behind, middle_text, pieces_text};
ghost use Rattle.iam_open.specs.Report.{IsRow};
ghost use Rattle.iam_open.specs.Rows.{TurnedRow, row_text, together};
ghost use Rattle.iam_open.specs.Turned.{IsTurned};
ghost use Rattle.iam_row.specs.Piece.{pieces_at};
ghost use Rattle.iam_row.specs.declared.quoted.Format.TheVariants as format;

use crate::answer::Turned;
use crate::asked::{Word, word_of};
use iam_layers::{OutOfMemory, World};
use iam_row::{Format, Position, Quoted, quote, text_at};
use itoa::Buffer;
use std::alloc::Global;

/// What stands before the principal in a row of JSON.
fn middle(word: Word) -> &'static str
    ensures { result.now ≡ middle_text word }
{
    match word {
        Word::Always => ",\"decision\":\"always\",\"principal\":",
        Word::Never => ",\"decision\":\"never\",\"principal\":",
        Word::Possible => ",\"decision\":\"possible\",\"principal\":",
        Word::Open => ",\"decision\":\"open\",\"principal\":",
    }
}

/// What stands behind the resource in a row of CSV.
fn back(word: Word) -> &'static str
    ensures { result.now ≡ back_text word }
{
    match word {
        Word::Always => ",always\n",
        Word::Never => ",never\n",
        Word::Possible => ",possible\n",
        Word::Open => ",open\n",
    }
}

/// Puts the row of a position in brief behind those before it.
pub fn put_brief(
    text: &mut String,
    quoted: &Quoted,
    at: Position,
    word: Word,
) -> Result<(), OutOfMemory>
    ensures { OnOk result (string_bytes text.new
        ≡ together quoted.now.format (string_bytes text.old) (pieces_text quoted.now.format at.cell (pieces_at quoted.now at) word)) }
{
    let principal = text_at(quoted.principals.as_slice(), at.principal);
    let action = text_at(quoted.actions.as_slice(), at.action);
    let resource = text_at(quoted.resources.as_slice(), at.resource);
    match quoted.format {
        Format::Csv => put_csv(text, at.cell, principal, action, resource, word),
        Format::Json => put_json(text, at.cell, principal, action, resource, word),
    }
}

/// The row of a cell in brief, as CSV, of whose request this is said.
pub fn brief_row(
    alloc: Global,
    world: &World,
    at: Position,
    turned: &Turned,
) -> Result<String, OutOfMemory>
    requires cell { IsCell world.now at.cell at.principal at.action at.resource }
    requires turned { IsTurned (world.now ∷ []) world.now at.principal at.action at.resource turned.now }
    ensures { IfOk result (λ text. (row : TurnedRow) × IsRow true world.now at.cell row × (row.turned ≡ turned.now)
        × (string_bytes text ≡ row_text format.Csv true at.cell row)) }
{
    let principal = quote(alloc, Format::Csv, world.principal_text(at.principal))?;
    let action = quote(alloc, Format::Csv, world.action_text(at.action))?;
    let resource = quote(alloc, Format::Csv, world.resource_text(at.resource))?;
    let principal = format!(in alloc; ",{principal},")?;
    let action = format!(in alloc; "{action},")?;
    let mut text = String::new(alloc);
    put_csv(
        &mut text,
        at.cell,
        principal.as_str(),
        action.as_str(),
        resource.as_str(),
        word_of(turned),
    )?;
    Ok(text)
}

/// Puts a comma behind rows, where there are some.
fn put_comma(text: &mut String) -> Result<(), OutOfMemory>
    ensures { OnOk result (string_bytes text.new ≡ string_bytes text.old ++ comma_behind (string_bytes text.old)) }
{
    if !text.is_empty() {
        text.push_str(",")?;
    }
    Ok(())
}

fn put_csv(
    text: &mut String,
    cell: u64,
    principal: &str,
    action: &str,
    resource: &str,
    word: Word,
) -> Result<(), OutOfMemory>
    ensures { OnOk result (string_bytes text.new ≡ string_bytes text.old
        ++ pieces_text format.Csv cell (record { principal = principal.now; action = action.now; resource = resource.now }) word) }
{
    let mut number = Buffer::new();
    text.push_str(number.format(cell))?;
    text.push_str(principal)?;
    text.push_str(action)?;
    text.push_str(resource)?;
    text.push_str(back(word))?;
    Ok(())
}

fn put_json(
    text: &mut String,
    cell: u64,
    principal: &str,
    action: &str,
    resource: &str,
    word: Word,
) -> Result<(), OutOfMemory>
    ensures { OnOk result (string_bytes text.new ≡ together format.Json (string_bytes text.old)
        (pieces_text format.Json cell (record { principal = principal.now; action = action.now; resource = resource.now }) word)) }
{
    let mut number = Buffer::new();
    put_comma(text)?;
    text.push_str(action)?;
    text.push_str(number.format(cell))?;
    text.push_str(middle(word))?;
    text.push_str(principal)?;
    text.push_str(resource)?;
    text.push_str("}")?;
    Ok(())
}
