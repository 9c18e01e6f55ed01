// A row: what is told of a request, the verdicts of both worlds, and an example.
ghost use Rattle.std.specs.Prelude.{◌≡◌, IfOk, codes, false, option_map, string_bytes};
ghost use Rattle.iam_open_changes.specs.Code.Texts.{texts_of};
ghost use Rattle.iam_open_changes.specs.Rows.{back_text, brief_text, front_text, full_text, joined_row, lacks_text, opening_text, shown_text, statements_text, word_text};
ghost use Rattle.iam_row.specs.Changes.{lacks_of, said_word, statements_of};
ghost use Rattle.iam_row.specs.Code.ChangeParts.{layers_in, lists_in, places_in, quoted_said};
ghost use Rattle.iam_row.specs.declared.quoted.Format.TheVariants as format;

use crate::example::Example;
use iam_layers::{Layer, OutOfMemory, Place, Verdict};
use iam_open::example_text;
use iam_row::{Format, Layers, Places, decision_word, quote};
use std::alloc::Global;

/// What a row tells of its request.
#[derive(Clone, Copy, Debug, PartialEq, Eq)]
pub enum Word {
    /// It is gained in the context of its example.
    Gained,
    /// It is lost in the context of its example.
    Lost,
    /// Of gains or of losses it is not known whether there are any.
    Open,
}

/// What stands before all rows: the line of the header, or `[`.
pub fn opening(format: Format, brief: bool) -> &'static str
    ensures { result.now ≡ opening_text format brief }
{
    match (format, brief) {
        (Format::Csv, true) => "change,principal,action,resource,before,after\n",
        (Format::Csv, false) => {
            "change,principal,action,resource,before,after,statements_before,lacks_before,statements_after,lacks_after,example\n"
        }
        (Format::Json, _) => "[",
    }
}

fn word_text(word: Word) -> &'static str
    ensures { result.now ≡ word_text word }
{
    match word {
        Word::Gained => "gained",
        Word::Lost => "lost",
        Word::Open => "open",
    }
}

/// The example as it stands in a row; where there is none, nothing in CSV, and `null` in JSON.
fn shown(alloc: Global, format: Format, example: Option<&Example>) -> Result<String, OutOfMemory>
    ensures { IfOk result (λ text. string_bytes text
        ≡ shown_text format (option_map (λ it. record { own = it.now.own.items; moment = it.now.moment }) example.entry)) }
{
    match (format, example) {
        (Format::Csv, Some(it)) => {
            let text = example_text(alloc, &it.own, it.moment)?;
            quote(alloc, Format::Csv, text.as_str())
        }
        (Format::Csv, None) => Ok(String::new(alloc)),
        (Format::Json, Some(it)) => example_text(alloc, &it.own, it.moment),
        (Format::Json, None) => String::from_str(alloc, "null"),
    }
}

/// The word of what is said, or nothing.
fn said_word(said: &Option<Verdict>) -> &'static str
    ensures { result.now ≡ said_word said.now }
{
    match said {
        Some(verdict) => decision_word(verdict.decision),
        None => "",
    }
}

/// The decision in JSON, or `null`.
fn quoted_said(alloc: Global, said: &Option<Verdict>) -> Result<String, OutOfMemory>
    ensures { IfOk result (λ text. string_bytes text ≡ quoted_said said.now) }
{
    match said {
        Some(verdict) => {
            let word = decision_word(verdict.decision);
            format!(in alloc; "\"{word}\"")
        }
        None => String::from_str(alloc, "null"),
    }
}

fn statements(said: &Option<Verdict>) -> &[Place]
    ensures { result.now ≡ statements_of said.entry.now }
{
    match said {
        Some(verdict) => verdict.statements.as_slice(),
        None => &[],
    }
}

fn lacks(said: &Option<Verdict>) -> &[Layer]
    ensures { result.now ≡ lacks_of said.entry.now }
{
    match said {
        Some(verdict) => verdict.lacks.as_slice(),
        None => &[],
    }
}

/// The statements and the lacks of what is said, as two fields of a line.
fn lists(alloc: Global, said: &Option<Verdict>) -> Result<String, OutOfMemory>
    ensures { IfOk result (λ text. string_bytes text ≡ lists_in said.now) }
{
    let statements = Places::of(statements(said), "", " ");
    let lacks = Layers::of(lacks(said), "", " ");
    format!(in alloc; "{statements},{lacks}")
}

/// The statements of what is said, as strings of a list.
fn places(alloc: Global, said: &Option<Verdict>) -> Result<String, OutOfMemory>
    ensures { IfOk result (λ text. string_bytes text ≡ places_in (codes "\"") (codes ",") said.now) }
{
    let statements = Places::of(statements(said), "\"", ",");
    format!(in alloc; "{statements}")
}

/// The lacks of what is said, as strings of a list.
fn layers(alloc: Global, said: &Option<Verdict>) -> Result<String, OutOfMemory>
    ensures { IfOk result (λ text. string_bytes text ≡ layers_in (codes "\"") (codes ",") said.now) }
{
    let lacks = Layers::of(lacks(said), "\"", ",");
    format!(in alloc; "{lacks}")
}

/// The texts of a request as they stand in a row.
#[derive(Clone, Copy)]
pub struct Texts<'a> {
    pub principal: &'a str,
    pub action: &'a str,
    pub resource: &'a str,
}

/// How a row begins, of texts as they stand in it.
fn front_text(
    alloc: Global,
    format: Format,
    texts: Texts<'_>,
    word: Word,
    before: &Option<Verdict>,
    after: &Option<Verdict>,
) -> Result<String, OutOfMemory>
    ensures { IfOk result (λ text. string_bytes text ≡ front_text format (texts_of texts.entry) word before.now after.now) }
{
    let Texts {
        principal,
        action,
        resource,
    } = texts;
    let word = word_text(word);
    match format {
        Format::Csv => {
            let said = said_word(before);
            let says = said_word(after);
            format!(in alloc; "{word},{principal},{action},{resource},{said},{says}")
        }
        Format::Json => {
            let said = quoted_said(alloc, before)?;
            let says = quoted_said(alloc, after)?;
            format!(in alloc;
                "{{\"action\":{action},\"after\":{says},\"before\":{said},\"change\":\"{word}\""
            )
        }
    }
}

/// A row in brief, of texts as they stand in it.
fn brief_text(
    alloc: Global,
    format: Format,
    texts: Texts<'_>,
    word: Word,
    before: &Option<Verdict>,
    after: &Option<Verdict>,
) -> Result<String, OutOfMemory>
    ensures { IfOk result (λ text. string_bytes text ≡ brief_text format (texts_of texts.entry) word before.now after.now) }
{
    let front = front_text(alloc, format, texts, word, before, after)?;
    let Texts {
        principal,
        action: _,
        resource,
    } = texts;
    match format {
        Format::Csv => format!(in alloc; "{front}\n"),
        Format::Json => {
            format!(in alloc; "{front},\"principal\":{principal},\"resource\":{resource}}}")
        }
    }
}

/// A row in full, of texts as they stand in it.
fn full_text(
    alloc: Global,
    format: Format,
    texts: Texts<'_>,
    word: Word,
    before: &Option<Verdict>,
    after: &Option<Verdict>,
    example: &str,
) -> Result<String, OutOfMemory>
    ensures { IfOk result (λ text. string_bytes text ≡ full_text format (texts_of texts.entry) word before.now after.now example.now) }
{
    let front = front_text(alloc, format, texts, word, before, after)?;
    match format {
        Format::Csv => {
            let said = lists(alloc, before)?;
            let says = lists(alloc, after)?;
            format!(in alloc; "{front},{said},{says},{example}\n")
        }
        Format::Json => {
            let back = back_text(alloc, texts, before, after)?;
            format!(in alloc; "{front},\"example\":{example}{back}")
        }
    }
}

/// What stands behind the example in JSON.
fn back_text(
    alloc: Global,
    texts: Texts<'_>,
    before: &Option<Verdict>,
    after: &Option<Verdict>,
) -> Result<String, OutOfMemory>
    ensures { IfOk result (λ text. string_bytes text ≡ back_text (texts_of texts.entry) before.now after.now) }
{
    let Texts {
        principal,
        action: _,
        resource,
    } = texts;
    let lacks = lacks_text(alloc, before, after)?;
    let statements = statements_text(alloc, before, after)?;
    format!(in alloc; "{lacks},\"principal\":{principal},\"resource\":{resource}{statements}")
}

/// The lacks of both worlds in JSON.
fn lacks_text(
    alloc: Global,
    before: &Option<Verdict>,
    after: &Option<Verdict>,
) -> Result<String, OutOfMemory>
    ensures { IfOk result (λ text. string_bytes text ≡ lacks_text before.now after.now) }
{
    let says = layers(alloc, after)?;
    let said = layers(alloc, before)?;
    format!(in alloc; ",\"lacks_after\":[{says}],\"lacks_before\":[{said}]")
}

/// The statements of both worlds in JSON, and the end of the row.
fn statements_text(
    alloc: Global,
    before: &Option<Verdict>,
    after: &Option<Verdict>,
) -> Result<String, OutOfMemory>
    ensures { IfOk result (λ text. string_bytes text ≡ statements_text before.now after.now) }
{
    let says = places(alloc, after)?;
    let said = places(alloc, before)?;
    format!(in alloc; ",\"statements_after\":[{says}],\"statements_before\":[{said}]}}")
}

/// The row of texts as they stand in it, of what is told, the verdicts of both worlds, and the example, if there is one.
pub fn row(
    alloc: Global,
    format: Format,
    brief: bool,
    texts: Texts<'_>,
    word: Word,
    before: &Option<Verdict>,
    after: &Option<Verdict>,
    example: Option<&Example>,
) -> Result<String, OutOfMemory>
    ensures { IfOk result (λ text. string_bytes text ≡ joined_row format brief (texts_of texts.entry) word before.now after.now
        (option_map (λ it. record { own = it.now.own.items; moment = it.now.moment }) example.entry)) }
{
    if brief {
        return brief_text(alloc, format, texts, word, before, after);
    }
    let shown = shown(alloc, format, example)?;
    full_text(alloc, format, texts, word, before, after, shown.as_str())
}
