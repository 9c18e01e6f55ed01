// The texts of the rows of one principal.
ghost use Rattle.std.specs.Prelude.{◌≡◌, ◌++◌, ◌+◌, ◌≤◌, ℕ, IfOk, List, OnOk, length, string_bytes, true};
ghost use Rattle.csv.specs.Writing.{default_writer, needs_byte, needs_quotes};
ghost use Rattle.iam_row.specs.Piece.{back_of, quote_of};
ghost use Rattle.iam_row.specs.declared.quoted.Format.TheVariants.{Csv};
ghost use Rattle.iam_every.specs.Every.{row_of};
ghost use Rattle.iam_every.specs.Report.{row_text, rows_text, texts_of};
ghost use Rattle.iam_every.specs.Code.Texts.{named_rows, quoted_row, tail_in, unshown_back, unshown_front, unshown_tail};

use crate::rows::Row;
use iam_decision::Verdict;
use iam_match::OutOfMemory;
use iam_row::{Format, Tail, comma_before, decision_word, quote};
use iam_text::Text;
use itoa::Buffer;
use std::alloc::Global;

/// What stands before the principal in a row that is not shown.
fn unshown_front(format: Format, brief: bool) -> &'static str
    ensures { result.now ≡ unshown_front format brief }
{
    match (format, brief) {
        (Format::Csv, _) => "",
        (Format::Json, true) => ",\"decision\":\"notShown\",\"principal\":",
        (Format::Json, false) => ",\"decision\":\"notShown\",\"lacks\":[],\"principal\":",
    }
}

/// What stands behind the resource in a row that is not shown.
fn unshown_back(format: Format, brief: bool) -> &'static str
    ensures { result.now ≡ unshown_back format brief }
{
    match (format, brief) {
        (Format::Csv, true) => ",notShown\n",
        (Format::Csv, false) => ",notShown,,\n",
        (Format::Json, true) => "}",
        (Format::Json, false) => ",\"statements\":[]}",
    }
}

/// The tail of a row that is not shown.
fn unshown(alloc: Global, format: Format, brief: bool) -> Result<Tail, OutOfMemory>
    ensures { IfOk result (λ tail. tail ≡ unshown_tail format brief) }
{
    Ok(Tail {
        front: Text::read(alloc, unshown_front(format, brief))?,
        back: Text::read(alloc, unshown_back(format, brief))?,
    })
}

/// The tail of a row with this verdict, or of one that is not shown.
fn tail_of(
    alloc: Global,
    format: Format,
    brief: bool,
    verdict: &Option<Verdict>,
) -> Result<Tail, OutOfMemory>
    ensures { IfOk result (λ tail. tail ≡ tail_in format brief verdict.now) }
{
    match verdict {
        Some(verdict) => Tail::of(alloc, format, brief, verdict),
        None => unshown(alloc, format, brief),
    }
}

/// A row of this number, of texts as they stand in it.
fn joined(
    alloc: Global,
    format: Format,
    cell: u64,
    principal: &str,
    action: &str,
    resource: &str,
    tail: &Tail,
) -> Result<String, OutOfMemory>
    ensures { IfOk result (λ text. string_bytes text ≡ quoted_row format cell
        (record { principal = principal.now; action = action.now; resource = resource.now }) tail.now) }
{
    let comma = comma_before(cell);
    let front = tail.front.as_str();
    let back = tail.back.as_str();
    match format {
        Format::Csv => { format!(in alloc; "{cell},{principal},{action},{resource}{back}") }
        Format::Json => {
            format!(in alloc;
                "{comma}{{\"action\":{action},\"cell\":{cell}{front}{principal},\"resource\":{resource}{back}"
            )
        }
    }
}

/// The row of this number, of a principal whose text stands so in rows.
fn row_text(
    alloc: Global,
    format: Format,
    brief: bool,
    cell: u64,
    principal: &str,
    row: &Row,
) -> Result<String, OutOfMemory>
    ensures { IfOk result (λ text. (named : List ℕ) → principal.now ≡ quote_of format named
        → string_bytes text ≡ row_text format brief cell (texts_of (record { principal = named; row = row_of row.now })) (row_of row.now).verdict) }
{
    let action = quote(alloc, format, row.action())?;
    let resource = quote(alloc, format, row.resource())?;
    let tail = tail_of(alloc, format, brief, row.verdict())?;
    joined(
        alloc,
        format,
        cell,
        principal,
        action.as_str(),
        resource.as_str(),
        &tail,
    )
}

/// Whether a byte sets a field apart, so that it has to stand in quotes.
fn sets_apart(byte: u8) -> bool
    ensures { result ≡ needs_byte default_writer byte }
{
    matches!(byte, b',' | b'"' | b'\r' | b'\n')
}

/// Whether a text as a field of CSV has to stand in quotes.
fn needs_quotes(text: &str) -> bool
    ensures { result ≡ needs_quotes default_writer text.now }
{
    text.as_bytes().iter().any(|&byte| sets_apart(byte))
}

/// Adds the text as a field of CSV. Most are their own field.
fn add_field(alloc: Global, row: &mut String, text: &str) -> Result<(), OutOfMemory>
    ensures { OnOk result (string_bytes row.new ≡ string_bytes row.old ++ quote_of Csv text.now) }
{
    if needs_quotes(text) {
        let field = quote(alloc, Format::Csv, text)?;
        row.push_str(field.as_str())?;
        return Ok(());
    }
    row.push_str(text)?;
    Ok(())
}

/// Adds what stands behind the resource in a row of CSV.
fn add_back(
    alloc: Global,
    row: &mut String,
    brief: bool,
    verdict: &Option<Verdict>,
) -> Result<(), OutOfMemory>
    ensures { OnOk result (string_bytes row.new ≡ string_bytes row.old ++ (tail_in Csv brief verdict.now).back) }
{
    match verdict {
        Some(verdict) if brief => add_decision(row, verdict),
        _ => {
            let tail = tail_of(alloc, Format::Csv, brief, verdict)?;
            row.push_str(tail.back.as_str())?;
            Ok(())
        }
    }
}

/// Adds what stands behind the resource in a brief row of CSV.
#[tactic(auto, unfolding(iam_row::specs::Piece::back_of))]
fn add_decision(row: &mut String, verdict: &Verdict) -> Result<(), OutOfMemory>
    ensures { OnOk result (string_bytes row.new ≡ string_bytes row.old ++ back_of Csv true verdict.now) }
{
    row.push_str(",")?;
    row.push_str(decision_word(verdict.decision))?;
    row.push_str("\n")?;
    Ok(())
}

/// Adds a row of CSV of this number, of a principal whose text stands so in rows.
fn add_csv_row(
    alloc: Global,
    text: &mut String,
    brief: bool,
    cell: u64,
    principal: &str,
    row: &Row,
) -> Result<(), OutOfMemory>
    ensures { OnOk result ((named : List ℕ) → principal.now ≡ quote_of Csv named → string_bytes text.new
        ≡ string_bytes text.old ++ row_text Csv brief cell (texts_of (record { principal = named; row = row_of row.now })) (row_of row.now).verdict) }
{
    let mut number = Buffer::new();
    text.push_str(number.format(cell))?;
    text.push_str(",")?;
    text.push_str(principal)?;
    text.push_str(",")?;
    add_field(alloc, text, row.action())?;
    text.push_str(",")?;
    add_field(alloc, text, row.resource())?;
    add_back(alloc, text, brief, row.verdict())
}

/// Adds the row of this number, of a principal whose text stands so in rows.
fn add_row(
    alloc: Global,
    text: &mut String,
    format: Format,
    brief: bool,
    cell: u64,
    principal: &str,
    row: &Row,
) -> Result<(), OutOfMemory>
    ensures { OnOk result ((named : List ℕ) → principal.now ≡ quote_of format named → string_bytes text.new
        ≡ string_bytes text.old ++ row_text format brief cell (texts_of (record { principal = named; row = row_of row.now })) (row_of row.now).verdict) }
{
    match format {
        Format::Csv => add_csv_row(alloc, text, brief, cell, principal, row),
        Format::Json => {
            let next = row_text(alloc, format, brief, cell, principal, row)?;
            text.push_str(next.as_str())?;
            Ok(())
        }
    }
}

/// The rows of the principal of this text, one behind the other, numbered from the first on.
pub fn rows_text(
    alloc: Global,
    format: Format,
    brief: bool,
    first: u64,
    principal: &str,
    rows: &[Row],
) -> Result<String, OutOfMemory>
    requires { first + length rows.now ≤ 16777216 }
    ensures { IfOk result (λ text. string_bytes text ≡ rows_text format brief first (named_rows principal.now rows.now)) }
{
    let quoted = quote(alloc, format, principal)?;
    let mut text = String::new(alloc);
    let mut cell = first;
    for row in rows {
        add_row(alloc, &mut text, format, brief, cell, quoted.as_str(), row)?;
        cell += 1;
    }
    Ok(text)
}
