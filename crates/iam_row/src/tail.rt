// The tails of rows.
ghost use Rattle.std.specs.Prelude.{◌≡◌, IfOk, string_bytes};
ghost use Rattle.iam_row.specs.Piece.{back_of, bare, front_of, tail_of};

use crate::quoted::Format;
use crate::words::{Layers, Places, decision_word};
use iam_layers::{Decision, Verdict};
use iam_text::{Items, OutOfMemory, Text};
use std::alloc::Global;

/// What a verdict adds to a row: the text before the principal, and the text behind the resource.
#[derive(Debug, Drop)]
pub struct Tail {
    pub front: Text,
    pub back: Text,
}

/// What stands before the principal: in CSV nothing.
#[tactic(auto, unfolding(crate::specs::Piece::front_of))]
fn front(
    alloc: Global,
    format: Format,
    brief: bool,
    verdict: &Verdict,
) -> Result<String, OutOfMemory>
    ensures { IfOk result (λ text. string_bytes text ≡ front_of format brief verdict.now) }
{
    let word = decision_word(verdict.decision);
    match (format, brief) {
        (Format::Csv, _) => Ok(String::new(alloc)),
        (Format::Json, true) => { format!(in alloc; ",\"decision\":\"{word}\",\"principal\":") }
        (Format::Json, false) => {
            let lacks = Layers::of(verdict.lacks.as_slice(), "\"", ",");
            format!(in alloc; ",\"decision\":\"{word}\",\"lacks\":[{lacks}],\"principal\":")
        }
    }
}

/// What stands behind the resource.
#[tactic(auto, unfolding(crate::specs::Piece::back_of))]
fn back(
    alloc: Global,
    format: Format,
    brief: bool,
    verdict: &Verdict,
) -> Result<String, OutOfMemory>
    ensures { IfOk result (λ text. string_bytes text ≡ back_of format brief verdict.now) }
{
    let word = decision_word(verdict.decision);
    match (format, brief) {
        (Format::Csv, true) => format!(in alloc; ",{word}\n"),
        (Format::Csv, false) => {
            let statements = Places::of(verdict.statements.as_slice(), "", " ");
            let lacks = Layers::of(verdict.lacks.as_slice(), "", " ");
            format!(in alloc; ",{word},{statements},{lacks}\n")
        }
        (Format::Json, true) => String::from_str(alloc, "}"),
        (Format::Json, false) => {
            let statements = Places::of(verdict.statements.as_slice(), "\"", ",");
            format!(in alloc; ",\"statements\":[{statements}]}}")
        }
    }
}

impl Tail {
    /// The tail of this verdict, or of its decision alone where the report is brief.
    pub fn of(
        alloc: Global,
        format: Format,
        brief: bool,
        verdict: &Verdict,
    ) -> Result<Tail, OutOfMemory>
        ensures { IfOk result (λ tail. tail ≡ tail_of format brief verdict.now) }
    {
        Ok(Tail {
            front: Text::from_string(front(alloc, format, brief, verdict)?),
            back: Text::from_string(back(alloc, format, brief, verdict)?),
        })
    }
}

/// A decision as a verdict without places and layers.
pub fn bare(alloc: Global, decision: Decision) -> Verdict
    ensures { result ≡ bare decision }
{
    Verdict {
        decision,
        statements: Items::from_vec(Vec::new(alloc)),
        lacks: Items::from_vec(Vec::new(alloc)),
    }
}
