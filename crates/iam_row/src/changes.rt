// What a change is, and what stands in a row of what has changed.
ghost use Rattle.std.specs.Prelude.{◌≡◌, IfOk, false, option_map, string_bytes};
ghost use Rattle.iam_row.specs.Changes.{allows, change_word, is_allowed, kind_by, lacks_of, row_word, said_word, statements_of};
ghost use Rattle.iam_row.specs.Code.ChangeParts.{change_action, change_back, change_front, change_tail, changes_opening};
ghost use Rattle.iam_row.specs.Code.ChangeParts.{lists_in, mark_of, null_or_word, quoted_said};
ghost use Rattle.iam_row.specs.declared.quoted.Format.TheVariants as format;

use crate::quoted::{Format, quote};
use crate::tail::Tail;
use crate::words::{Layers, Places, decision_word};
use iam_layers::{Decision, Layer, Place, Verdict};
use iam_text::{OutOfMemory, Text};
use std::alloc::Global;

/// What has become of a request.
#[derive(Clone, Copy, Debug, PartialEq, Eq)]
pub enum Change {
    /// It is allowed, and was not, or was not there.
    Gained,
    /// It was allowed, and is not, or is not there.
    Lost,
    /// It is as allowed as before, by another verdict.
    Differs,
}

impl Change {
    /// The word of the change.
    pub fn word(self) -> &'static str
        ensures { result.now ≡ change_word self }
    {
        match self {
            Change::Gained => "gained",
            Change::Lost => "lost",
            Change::Differs => "differs",
        }
    }
}

/// Whether a decision is that a request is allowed.
fn allows(decision: Decision) -> bool
    ensures { result ≡ allows decision }
{
    matches!(decision, Decision::Allowed)
}

/// Whether a request is allowed, by what is said of it.
#[inline(always)]
pub fn is_allowed(said: Option<&Verdict>) -> bool
    ensures { result ≡ is_allowed (option_map (λ verdict. verdict.now) said.entry) }
{
    match said {
        Some(verdict) => allows(verdict.decision),
        None => false,
    }
}

/// The change of what is said, where it is one.
pub fn kind_of(before: Option<&Verdict>, after: Option<&Verdict>) -> Change
    ensures { result ≡ kind_by (is_allowed (option_map (λ verdict. verdict.now) before.entry)) (is_allowed (option_map (λ verdict. verdict.now) after.entry)) }
{
    match (is_allowed(before), is_allowed(after)) {
        (false, true) => Change::Gained,
        (true, false) => Change::Lost,
        _ => Change::Differs,
    }
}

/// The word of a row: a line that is not shown has no change.
fn row_word(change: Option<Change>) -> &'static str
    ensures { result.now ≡ row_word change }
{
    match change {
        Some(change) => change.word(),
        None => "notShown",
    }
}

/// What stands before all rows: the line of the header, or `[`.
#[tactic(auto, unfolding(csv::specs::Writing::fields_text, csv::specs::Writing::is_blank))]
pub fn changes_opening(format: Format, brief: bool) -> &'static str
    ensures { result.now ≡ changes_opening format brief }
{
    match (format, brief) {
        (Format::Csv, true) => "change,principal,action,resource,before,after\n",
        (Format::Csv, false) => {
            "change,principal,action,resource,before,after,statements_before,lacks_before,statements_after,lacks_after\n"
        }
        (Format::Json, _) => "[",
    }
}

/// The text of an action, with what stands beside it in each row. `OutOfMemory` comes where it finds no memory.
pub fn change_action(alloc: Global, format: Format, text: &str) -> Result<Text, OutOfMemory>
    ensures { IfOk result (λ piece. piece ≡ change_action format text.now) }
{
    let quoted = quote(alloc, format, text)?;
    let piece = match format {
        Format::Csv => format!(in alloc; "{quoted},")?,
        Format::Json => format!(in alloc; "{{\"action\":{quoted}")?,
    };
    Ok(Text::from_string(piece))
}

/// The word of what is said, or nothing.
fn word_of(said: &Option<Verdict>) -> &'static str
    ensures { result.now ≡ said_word said.now }
{
    match said {
        Some(verdict) => decision_word(verdict.decision),
        None => "",
    }
}

/// The mark on each side of the word of what is said in JSON.
fn mark_of(said: &Option<Verdict>) -> &'static str
    ensures { result.now ≡ mark_of said.now }
{
    match said {
        Some(_) => "\"",
        None => "",
    }
}

/// The word, or `null`.
fn null_or_word(said: &Option<Verdict>) -> &'static str
    ensures { result.now ≡ null_or_word said.now }
{
    match said {
        Some(verdict) => decision_word(verdict.decision),
        None => "null",
    }
}

fn statements(said: &Option<Verdict>) -> &[Place]
    ensures { result.now ≡ statements_of said.entry.now }
{
    match said {
        Some(verdict) => verdict.statements.as_slice(),
        None => &[],
    }
}

fn lacks(said: &Option<Verdict>) -> &[Layer]
    ensures { result.now ≡ lacks_of said.entry.now }
{
    match said {
        Some(verdict) => verdict.lacks.as_slice(),
        None => &[],
    }
}

/// The decision in JSON.
fn quoted(alloc: Global, said: &Option<Verdict>) -> Result<String, OutOfMemory>
    ensures { IfOk result (λ text. string_bytes text ≡ quoted_said said.now) }
{
    let mark = mark_of(said);
    let word = null_or_word(said);
    format!(in alloc; "{mark}{word}{mark}")
}

/// What stands before the principal: in CSV the word of the row, in JSON all between the action and it.
#[tactic(auto, unfolding(crate::specs::Code::ChangeParts::change_front))]
fn front(
    alloc: Global,
    format: Format,
    brief: bool,
    change: Option<Change>,
    before: &Option<Verdict>,
    after: &Option<Verdict>,
) -> Result<String, OutOfMemory>
    ensures { IfOk result (λ text. string_bytes text ≡ change_front format brief change before.now after.now) }
{
    let word = row_word(change);
    if format == Format::Csv {
        return String::from_str(alloc, word);
    }
    let says = quoted(alloc, after)?;
    let said = quoted(alloc, before)?;
    if brief {
        return format!(in alloc;
            ",\"after\":{says},\"before\":{said},\"change\":\"{word}\",\"principal\":"
        );
    }
    let lacks_after = Layers::of(lacks(after), "\"", ",");
    let lacks_before = Layers::of(lacks(before), "\"", ",");
    format!(in alloc;
        ",\"after\":{says},\"before\":{said},\"change\":\"{word}\",\"lacks_after\":[{lacks_after}],\"lacks_before\":[{lacks_before}],\"principal\":"
    )
}

/// What stands behind the resource.
#[tactic(auto, unfolding(crate::specs::Code::ChangeParts::change_back))]
fn back(
    alloc: Global,
    format: Format,
    brief: bool,
    before: &Option<Verdict>,
    after: &Option<Verdict>,
) -> Result<String, OutOfMemory>
    ensures { IfOk result (λ text. string_bytes text ≡ change_back format brief before.now after.now) }
{
    match (format, brief) {
        (Format::Csv, true) => {
            let said = word_of(before);
            let says = word_of(after);
            format!(in alloc; ",{said},{says}\n")
        }
        (Format::Csv, false) => full_line(alloc, before, after),
        (Format::Json, true) => String::from_str(alloc, "}"),
        (Format::Json, false) => {
            let said = Places::of(statements(before), "\"", ",");
            let says = Places::of(statements(after), "\"", ",");
            format!(in alloc; ",\"statements_after\":[{says}],\"statements_before\":[{said}]}}")
        }
    }
}

/// The statements and the lacks of what is said, as two fields of a line.
fn lists(alloc: Global, said: &Option<Verdict>) -> Result<String, OutOfMemory>
    ensures { IfOk result (λ text. string_bytes text ≡ lists_in said.now) }
{
    let statements = Places::of(statements(said), "", " ");
    let lacks = Layers::of(lacks(said), "", " ");
    format!(in alloc; "{statements},{lacks}")
}

/// What stands behind the resource in a full line.
#[tactic(auto, unfolding(crate::specs::Code::ChangeParts::change_back))]
fn full_line(
    alloc: Global,
    before: &Option<Verdict>,
    after: &Option<Verdict>,
) -> Result<String, OutOfMemory>
    ensures { IfOk result (λ text. string_bytes text ≡ change_back format.Csv false before.now after.now) }
{
    let said = word_of(before);
    let says = word_of(after);
    let lists_before = lists(alloc, before)?;
    let lists_after = lists(alloc, after)?;
    format!(in alloc; ",{said},{says},{lists_before},{lists_after}\n")
}

/// The tail of the row of a change, or of a line that is not shown, with what is said before and after; in brief only the decisions
/// of these stand in it. `OutOfMemory` comes where it finds no memory.
pub fn change_tail(
    alloc: Global,
    format: Format,
    brief: bool,
    change: Option<Change>,
    before: &Option<Verdict>,
    after: &Option<Verdict>,
) -> Result<Tail, OutOfMemory>
    ensures { IfOk result (λ tail. tail ≡ change_tail format brief change before.now after.now) }
{
    Ok(Tail {
        front: Text::from_string(front(alloc, format, brief, change, before, after)?),
        back: Text::from_string(back(alloc, format, brief, before, after)?),
    })
}
