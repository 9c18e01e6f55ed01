// Whether an entry of a condition holds: its quantifier, its values, and keys that are absent.
ghost use Rattle.std.specs.Prelude.{◌≡◌, ◌↔◌, ℕ, List, All, Any, IsTrue, IfOk};
ghost use Rattle.iam_match.specs.Code.Asked.{IsAsked, ValueDiffers};
ghost use Rattle.iam_match.specs.Entry.{EntryHolds, HasTruth, HoldsBare, HoldsWith, HoldsWithout, Satisfies, ValueMatches, asks_every, is_null};
ghost use Rattle.iam_condition.specs.declared.operator.Base.{Base};

use crate::asked::Asked;
use crate::compare::{compare, is_truth};
use iam_condition::{Base, Entry, Operand, Operator, Quantifier};
use iam_context::Context;
use iam_text::{OutOfMemory, Text};
use std::alloc::Global;

/// Whether an entry of a condition holds in a context. It takes the allocator for the patterns that texts with variables
/// become, and for the bytes of a text under `BinaryEquals`; nothing else takes memory.
///
/// AWS IAM User Guide, "IAM JSON policy elements: Condition operators".
pub fn holds<'c>(
    alloc: Global,
    entry: &'c Entry,
    context: &Context<'c>,
) -> Result<bool, OutOfMemory>
    ensures { IfOk result (λ held. IsTrue held ↔ EntryHolds context.now entry.now) }
{
    let operator = entry.operator();
    match context.values(entry.key()) {
        [] => Ok(holds_without(operator, entry.values())),
        texts => holds_with(alloc, operator, entry.values(), texts, context),
    }
}

/// Whether the entry holds where its key has no value.
fn holds_without(operator: Operator, values: &[Operand]) -> bool
    ensures { IsTrue result ↔ HoldsWithout operator values.now }
{
    operator.if_exists || holds_bare(operator, values)
}

fn holds_bare(operator: Operator, values: &[Operand]) -> bool
    ensures { IsTrue result ↔ HoldsBare operator.quantifier operator values.now }
{
    match operator.quantifier {
        Some(Quantifier::ForAllValues) => true, // each of no values satisfies
        Some(Quantifier::ForAnyValue) => false, // and none does
        None => operator.is_negated || (is_null(operator.base) && has_truth(values, true)),
    }
}

/// Whether it asks for the presence of a key alone.
fn is_null(base: Base) -> bool
    ensures { result ≡ is_null base }
{
    matches!(base, Base::Null)
}

/// Whether this truth value is one of the values.
fn has_truth(values: &[Operand], truth: bool) -> bool
    ensures { IsTrue result ↔ HasTruth truth values.now }
{
    values.iter().any(|value| is_truth(truth, value))
}

/// Whether the entry holds where its key has these values.
fn holds_with<'c>(
    alloc: Global,
    operator: Operator,
    values: &'c [Operand],
    texts: &[Text],
    context: &Context<'c>,
) -> Result<bool, OutOfMemory>
    ensures { IfOk result (λ held. IsTrue held ↔ HoldsWith context.now operator values.now texts.now) }
{
    if is_null(operator.base) {
        return Ok(has_truth(values, false));
    }
    let every = asks_every(operator);
    for text in texts {
        if satisfies(alloc, operator, values, text.as_str(), context)? != every {
            return Ok(!every);
        }
    }
    Ok(every)
}

/// Whether each value of the request has to satisfy the operator, and not some value.
fn asks_every(operator: Operator) -> bool
    ensures { result ≡ asks_every operator.quantifier operator.is_negated }
{
    match operator.quantifier {
        Some(Quantifier::ForAllValues) => true, // also under a positive operator
        Some(Quantifier::ForAnyValue) => false, // one is enough
        None => operator.is_negated,
    }
}

/// Whether a text of the request satisfies the operator with these values.
fn satisfies<'c>(
    alloc: Global,
    operator: Operator,
    values: &'c [Operand],
    text: &str,
    context: &Context<'c>,
) -> Result<bool, OutOfMemory>
    ensures { IfOk result (λ satisfied. IsTrue satisfied ↔ Satisfies context.now operator values.now text.now) }
{
    let asked = Asked::read(alloc, operator.base, text)?;
    if operator.is_negated {
        differs_from_all(alloc, &asked, values, context)
    } else {
        matches_some(alloc, &asked, values, context)
    }
}

/// Whether the text matches some value.
fn matches_some<'c>(
    alloc: Global,
    asked: &Asked<'_>,
    values: &'c [Operand],
    context: &Context<'c>,
) -> Result<bool, OutOfMemory>
    ensures { (base : Base) (text : List ℕ) → IsAsked base text asked.now
        → IfOk result (λ some. IsTrue some ↔ Any (ValueMatches context.now base text) values.now) }
{
    for value in values {
        if compare(alloc, asked, value, context)? == Some(true) {
            return Ok(true);
        }
    }
    Ok(false)
}

/// Whether each value resolves, and the text matches none.
fn differs_from_all<'c>(
    alloc: Global,
    asked: &Asked<'_>,
    values: &'c [Operand],
    context: &Context<'c>,
) -> Result<bool, OutOfMemory>
    ensures { (base : Base) (text : List ℕ) → IsAsked base text asked.now
        → IfOk result (λ differ. IsTrue differ ↔ All (ValueDiffers context.now base text) values.now) }
{
    for value in values {
        if compare(alloc, asked, value, context)? != Some(false) {
            return Ok(false);
        }
    }
    Ok(true)
}
