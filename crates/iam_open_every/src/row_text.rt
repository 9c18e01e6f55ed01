// The texts of the rows of one principal.
ghost use Rattle.std.specs.Prelude.{◌≡◌, ◌+◌, ◌≤◌, ℕ, IfOk, List, None, length, string_bytes};
ghost use Rattle.iam_open.specs.Rows.{shown_text};
ghost use Rattle.iam_open.specs.declared.answer.Turned.TheVariants.{Open};
ghost use Rattle.iam_row.specs.Piece.{quote_of};
ghost use Rattle.iam_open_every.specs.Code.Texts.{named_rows};
ghost use Rattle.iam_open_every.specs.Report.{comma_in, row_text, rows_text, said_text};
ghost use Rattle.iam_open_every.specs.Row.{row_of};

use crate::rows::Row;
use crate::said::Said;
use iam_match::OutOfMemory;
use iam_open::{brief_text, full_row, full_text, word_of, word_text};
use iam_row::{Format, comma_before, quote};
use std::alloc::Global;

/// In JSON a comma, where a row stands before that of this number.
fn comma_in(format: Format, cell: u64) -> &'static str
    ensures { result.now ≡ comma_in format cell }
{
    match format {
        Format::Csv => "",
        Format::Json => comma_before(cell),
    }
}

/// What stands in the place of an example, where there is none.
fn no_example(format: Format) -> &'static str
    ensures { result.now ≡ shown_text format Open }
{
    match format {
        Format::Csv => "",
        Format::Json => "null",
    }
}

/// A row that says that its line is not shown, of texts as they stand in it.
fn unshown_text(
    alloc: Global,
    format: Format,
    brief: bool,
    cell: u64,
    principal: &str,
    action: &str,
    resource: &str,
) -> Result<String, OutOfMemory>
    ensures { IfOk result (λ text. string_bytes text ≡ said_text format brief cell
        (record { principal = principal.now; action = action.now; resource = resource.now }) None) }
{
    let word = "notShown";
    if brief {
        return brief_text(alloc, format, cell, principal, action, resource, word);
    }
    full_text(
        alloc,
        format,
        cell,
        principal,
        action,
        resource,
        word,
        "",
        "",
        "",
        "",
        no_example(format),
    )
}

/// A row of texts as they stand in it, with what is said of its request.
fn said_text(
    alloc: Global,
    format: Format,
    brief: bool,
    cell: u64,
    principal: &str,
    action: &str,
    resource: &str,
    said: &Option<Said>,
) -> Result<String, OutOfMemory>
    ensures { IfOk result (λ text. string_bytes text ≡ said_text format brief cell
        (record { principal = principal.now; action = action.now; resource = resource.now }) said.now) }
{
    match said {
        Some(said) if brief => {
            let word = word_text(word_of(&said.turned));
            brief_text(alloc, format, cell, principal, action, resource, word)
        }
        Some(said) => full_row(
            alloc,
            format,
            cell,
            principal,
            action,
            resource,
            &said.turned,
            &said.verdict,
            &said.hangs,
        ),
        None => unshown_text(alloc, format, brief, cell, principal, action, resource),
    }
}

/// The row of this number, of a principal whose text stands so in rows.
fn row_text(
    alloc: Global,
    format: Format,
    brief: bool,
    cell: u64,
    principal: &str,
    row: &Row,
) -> Result<String, OutOfMemory>
    ensures { IfOk result (λ text. (named : List ℕ) → principal.now ≡ quote_of format named
        → string_bytes text ≡ row_text format brief cell (record { principal = named; row = row_of row.now })) }
{
    let action = quote(alloc, format, row.action())?;
    let resource = quote(alloc, format, row.resource())?;
    let text = said_text(
        alloc,
        format,
        brief,
        cell,
        principal,
        action.as_str(),
        resource.as_str(),
        &row.said,
    )?;
    let comma = comma_in(format, cell);
    format!(in alloc; "{comma}{text}")
}

/// The rows of the principal of this text, one behind the other, numbered from the first on.
pub fn rows_text(
    alloc: Global,
    format: Format,
    brief: bool,
    first: u64,
    principal: &str,
    rows: &[Row],
) -> Result<String, OutOfMemory>
    requires { first + length rows.now ≤ 16777216 }
    ensures { IfOk result (λ text. string_bytes text ≡ rows_text format brief first (named_rows principal.now rows.now)) }
{
    let quoted = quote(alloc, format, principal)?;
    let mut text = String::new(alloc);
    let mut cell = first;
    for row in rows {
        let next = row_text(alloc, format, brief, cell, quoted.as_str(), row)?;
        text.push_str(next.as_str())?;
        cell += 1;
    }
    Ok(text)
}
