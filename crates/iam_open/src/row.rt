// The rows of requests: what is said of each, and an example.
ghost use Rattle.std.specs.Prelude.{◌≡◌, ◌++◌, ◌∷◌, [], IfOk, OnOk, codes, false, string_bytes};
ghost use Rattle.std.specs.List.{join_by};
ghost use Rattle.iam_layers.specs.Cell.{IsCell};
ghost use Rattle.iam_open.specs.Report.{IsRow};
ghost use Rattle.iam_open.specs.Rows.{TurnedRow, back_text, entry_text, brief_text, example_text, front_text, full_text, joined_row, json_of, keys_in, lacks_in, opening_text, places_in, row_text, row_with, shown_text, turned_word};
ghost use Rattle.iam_open.specs.Turned.{IsTurned};
ghost use Rattle.iam_decision.specs.declared.verdict.Verdict.{Verdict};
ghost use Rattle.iam_row.specs.Piece.{quote_of};
ghost use Rattle.iam_row.specs.Report.{CellTexts, HasTexts};

use crate::answer::Turned;
use crate::asked::{word_of, word_text};
use crate::hangs::{Hangs, hangs_of};
use iam_context::{KeyName, Part, Values};
use iam_decision::Place;
use iam_layers::{OutOfMemory, Verdict, World};
use iam_row::{Format, Layers, Places, Position, quote};
use iam_text::Text;
use std::alloc::Global;

/// What stands before all rows: the line of the header, or `[`.
pub fn opening(format: Format, brief: bool) -> &'static str
    ensures { result.now ≡ opening_text format brief }
{
    match (format, brief) {
        (Format::Csv, true) => "cell,principal,action,resource,decision\n",
        (Format::Csv, false) =>
            "cell,principal,action,resource,decision,statements,lacks,hangs_on,keys,example\n",
        (Format::Json, _) => "[",
    }
}

fn word(turned: &Turned) -> &'static str
    ensures { result.now ≡ turned_word turned.now }
{
    word_text(word_of(turned))
}

/// Puts a text as a string of JSON behind another.
fn put_json(alloc: Global, text: &mut String, value: &str) -> Result<(), OutOfMemory>
    ensures { OnOk result (string_bytes text.new ≡ string_bytes text.old ++ json_of value.now) }
{
    let quoted = quote(alloc, Format::Json, value)?;
    text.push_str(quoted.as_str())?;
    Ok(())
}

/// Puts values as strings of JSON behind a text, with commas between them.
fn put_values(alloc: Global, text: &mut String, values: &[Text]) -> Result<(), OutOfMemory>
    ensures { OnOk result (string_bytes text.new ≡ string_bytes text.old ++ join_by json_of (codes ",") values.now) }
{
    let Some((first, rest)) = values.split_first() else {
        return Ok(());
    };
    put_json(alloc, text, first.as_str())?;
    for value in rest {
        text.push_str(",")?;
        put_json(alloc, text, value.as_str())?;
    }
    Ok(())
}

/// Puts a key with its values behind a text.
fn put_entry(alloc: Global, text: &mut String, entry: &(KeyName, Values)) -> Result<(), OutOfMemory>
    ensures { OnOk result (string_bytes text.new ≡ string_bytes text.old ++ entry_text entry.now) }
{
    put_json(alloc, text, entry.0.as_str())?;
    text.push_str(":[")?;
    put_values(alloc, text, entry.1.as_slice())?;
    text.push_str("]")?;
    Ok(())
}

/// Keys with their values, with commas between them.
fn entries(alloc: Global, own: &[(KeyName, Values)]) -> Result<String, OutOfMemory>
    ensures { IfOk result (λ text. string_bytes text ≡ join_by entry_text (codes ",") own.now) }
{
    let mut text = String::new(alloc);
    let Some((first, rest)) = own.split_first() else {
        return Ok(text);
    };
    put_entry(alloc, &mut text, first)?;
    for entry in rest {
        text.push_str(",")?;
        put_entry(alloc, &mut text, entry)?;
    }
    Ok(text)
}

/// Keys and a moment as JSON.
pub fn example_text(alloc: Global, own: &Part, moment: u64) -> Result<String, OutOfMemory>
    ensures { IfOk result (λ text. string_bytes text ≡ example_text own.now.items moment) }
{
    let entries = entries(alloc, own.as_slice())?;
    format!(in alloc; "{{\"context\":{{{entries}}},\"moment\":{moment}}}")
}

/// The example as it stands in a row; where there is none, nothing in CSV, and `null` in JSON.
fn shown(alloc: Global, format: Format, turned: &Turned) -> Result<String, OutOfMemory>
    ensures { IfOk result (λ text. string_bytes text ≡ shown_text format turned.now) }
{
    match (format, turned) {
        (Format::Csv, Turned::Possible(it)) => {
            let text = example_text(alloc, &it.own, it.moment)?;
            quote(alloc, Format::Csv, text.as_str())
        }
        (Format::Csv, _) => Ok(String::new(alloc)),
        (Format::Json, Turned::Possible(it)) => example_text(alloc, &it.own, it.moment),
        (Format::Json, _) => String::from_str(alloc, "null"),
    }
}

/// How a row begins, of texts as they stand in it: in CSV up to the resource, in JSON up to the decision.
fn front_text(
    alloc: Global,
    format: Format,
    cell: u64,
    principal: &str,
    action: &str,
    resource: &str,
    word: &str,
) -> Result<String, OutOfMemory>
    ensures { IfOk result (λ text. string_bytes text
        ≡ front_text format cell (record { principal = principal.now; action = action.now; resource = resource.now }) word.now) }
{
    match format {
        Format::Csv => format!(in alloc; "{cell},{principal},{action},{resource},{word}"),
        Format::Json => {
            format!(in alloc; "{{\"action\":{action},\"cell\":{cell},\"decision\":\"{word}\"")
        }
    }
}

/// How a row of JSON ends: behind the lacks.
fn back_text(
    alloc: Global,
    principal: &str,
    resource: &str,
    statements: &str,
) -> Result<String, OutOfMemory>
    ensures { IfOk result (λ text. string_bytes text ≡ back_text principal.now resource.now statements.now) }
{
    format!(in alloc;
        ",\"principal\":{principal},\"resource\":{resource},\"statements\":[{statements}]}}"
    )
}

/// A row in brief, of texts as they stand in it.
pub fn brief_text(
    alloc: Global,
    format: Format,
    cell: u64,
    principal: &str,
    action: &str,
    resource: &str,
    word: &str,
) -> Result<String, OutOfMemory>
    ensures { IfOk result (λ text. string_bytes text
        ≡ brief_text format cell (record { principal = principal.now; action = action.now; resource = resource.now }) word.now) }
{
    let front = front_text(alloc, format, cell, principal, action, resource, word)?;
    match format {
        Format::Csv => format!(in alloc; "{front}\n"),
        Format::Json => format!(in alloc;
            "{front},\"principal\":{principal},\"resource\":{resource}}}"
        ),
    }
}

/// A row in full, of texts as they stand in it.
pub fn full_text(
    alloc: Global,
    format: Format,
    cell: u64,
    principal: &str,
    action: &str,
    resource: &str,
    word: &str,
    statements: &str,
    lacks: &str,
    hangs_on: &str,
    keys: &str,
    example: &str,
) -> Result<String, OutOfMemory>
    ensures { IfOk result (λ text. string_bytes text
        ≡ full_text format cell (record { principal = principal.now; action = action.now; resource = resource.now }) word.now statements.now lacks.now hangs_on.now keys.now example.now) }
{
    let front = front_text(alloc, format, cell, principal, action, resource, word)?;
    match format {
        Format::Csv => format!(in alloc;
            "{front},{statements},{lacks},{hangs_on},{keys},{example}\n"
        ),
        Format::Json => {
            let back = back_text(alloc, principal, resource, statements)?;
            format!(in alloc;
                "{front},\"example\":{example},\"hangs_on\":[{hangs_on}],\"keys\":[{keys}],\"lacks\":[{lacks}]{back}"
            )
        }
    }
}

/// Places as they stand in a row.
fn places(alloc: Global, format: Format, places: &[Place]) -> Result<String, OutOfMemory>
    ensures { IfOk result (λ text. string_bytes text ≡ places_in format places.now) }
{
    let (mark, between) = match format {
        Format::Csv => ("", " "),
        Format::Json => ("\"", ","),
    };
    let places = Places::of(places, mark, between);
    format!(in alloc; "{places}")
}

/// Keys as they stand in a row.
fn keys(alloc: Global, format: Format, keys: &[Text]) -> Result<String, OutOfMemory>
    ensures { IfOk result (λ text. string_bytes text ≡ keys_in format keys.now) }
{
    let mut texts = String::new(alloc);
    put_values(alloc, &mut texts, keys)?;
    match (format, keys) {
        (Format::Json, _) => Ok(texts),
        (Format::Csv, []) => Ok(texts),
        (Format::Csv, _) => listed(alloc, texts.as_str()),
    }
}

/// A list of these texts as a field of CSV.
fn listed(alloc: Global, texts: &str) -> Result<String, OutOfMemory>
    ensures { IfOk result (λ text. string_bytes text ≡ quote_of Format.Csv (codes "[" ++ (texts.now ++ codes "]"))) }
{
    let list = format!(in alloc; "[{texts}]")?;
    quote(alloc, Format::Csv, list.as_str())
}

/// The lacks of a verdict as they stand in a row.
fn lacks(alloc: Global, format: Format, verdict: &Verdict) -> Result<String, OutOfMemory>
    ensures { IfOk result (λ text. string_bytes text ≡ lacks_in format verdict.now) }
{
    let (mark, between) = match format {
        Format::Csv => ("", " "),
        Format::Json => ("\"", ","),
    };
    let lacks = Layers::of(verdict.lacks.as_slice(), mark, between);
    format!(in alloc; "{lacks}")
}

/// A row in full of what is said of a request, of texts as they stand in it.
pub fn full_row(
    alloc: Global,
    format: Format,
    cell: u64,
    principal: &str,
    action: &str,
    resource: &str,
    turned: &Turned,
    verdict: &Verdict,
    hangs: &Hangs,
) -> Result<String, OutOfMemory>
    ensures { IfOk result (λ text. string_bytes text
        ≡ joined_row format false cell (record { principal = principal.now; action = action.now; resource = resource.now }) turned.now verdict.now
        hangs.now.places.items hangs.now.keys.items) }
{
    let shown = shown(alloc, format, turned)?;
    let statements = places(alloc, format, verdict.statements.as_slice())?;
    let lacks = lacks(alloc, format, verdict)?;
    let hangs_on = places(alloc, format, hangs.places.as_slice())?;
    let keys = keys(alloc, format, hangs.keys.as_slice())?;
    full_text(
        alloc,
        format,
        cell,
        principal,
        action,
        resource,
        word(turned),
        statements.as_str(),
        lacks.as_str(),
        hangs_on.as_str(),
        keys.as_str(),
        shown.as_str(),
    )
}

/// The same, of the texts of a request.
fn texts_row(
    alloc: Global,
    world: &World,
    format: Format,
    at: Position,
    turned: &Turned,
    verdict: &Verdict,
    hangs: &Hangs,
) -> Result<String, OutOfMemory>
    requires { IsCell world.now at.cell at.principal at.action at.resource }
    ensures { IfOk result (λ text. (texts : CellTexts) × HasTexts world.now at.principal at.action at.resource texts × (string_bytes text
        ≡ row_text format false at.cell (row_with texts turned.now verdict.now hangs.now.places.items hangs.now.keys.items))) }
{
    let principal = quote(alloc, format, world.principal_text(at.principal))?;
    let action = quote(alloc, format, world.action_text(at.action))?;
    let resource = quote(alloc, format, world.resource_text(at.resource))?;
    full_row(
        alloc,
        format,
        at.cell,
        principal.as_str(),
        action.as_str(),
        resource.as_str(),
        turned,
        verdict,
        hangs,
    )
}

/// The row of a cell in full, of whose request this is said.
pub fn row(
    alloc: Global,
    world: &World,
    format: Format,
    at: Position,
    turned: &Turned,
) -> Result<String, OutOfMemory>
    requires cell { IsCell world.now at.cell at.principal at.action at.resource }
    requires turned { IsTurned (world.now ∷ []) world.now at.principal at.action at.resource turned.now }
    ensures { IfOk result (λ text. (row : TurnedRow) × IsRow false world.now at.cell row × (row.turned ≡ turned.now)
        × (string_bytes text ≡ row_text format false at.cell row)) }
{
    let (p, a, r) = (at.principal, at.action, at.resource);
    let hangs = hangs_of(alloc, world, p, a, r, turned)?;
    match turned {
        Turned::Possible(it) => texts_row(alloc, world, format, at, turned, &it.verdict, &hangs),
        _ => {
            let verdict = world.decide_plain(alloc, p, a, r)?;
            texts_row(alloc, world, format, at, turned, &verdict, &hangs)
        }
    }
}
