// Entries of conditions that no value of their key meets: where a variable of each of their values has none, whatever the key has.
ghost use Rattle.std.specs.Prelude.{◌≡◌, All, IfOk, IsTrue, None};
ghost use Rattle.iam_context.specs.Context.{ContextValue};
ghost use Rattle.iam_context.specs.Resolve.{resolved};
ghost use Rattle.iam_match.specs.Entry.{EntryHolds};
ghost use Rattle.iam_open.specs.Code.Known.{AgreeOn};
ghost use Rattle.iam_open.specs.Code.Unmet.{AsksForOne, IsUnmet, IsUnresolved};

use crate::beyond::text_beyond;
use crate::known::Known;
use iam_condition::{Entry, Operand, Operator, Quantifier};
use iam_context::{Context, resolve};
use iam_match::OutOfMemory;
use iam_text::{Template, TemplateForm};
use std::alloc::Global;

/// `true` only where the entry holds in none of the contexts that agree with this one on the keys that are known: it asks that a value of
/// its key matches one of its texts, and by these keys none of its texts becomes a pattern.
///
/// AWS IAM User Guide, "IAM policy elements: Variables and tags".
pub fn is_unmet<'c>(
    alloc: Global,
    entry: &'c Entry,
    context: &Context<'c>,
    known: &Known<'_>,
) -> Result<bool, OutOfMemory>
    ensures { IfOk result (λ yes. IsTrue yes → (other : ContextValue) → AgreeOn known.now context.now other → ¬ EntryHolds other entry.now) }
{
    if !asks_for_one(entry.operator()) {
        return Ok(false);
    }
    are_unmet(alloc, entry.values(), context, known)
}

/// `true` only where the operator holds of no key without a value, and of no value that matches none of its own.
fn asks_for_one(operator: Operator) -> bool
    ensures { IsTrue result → AsksForOne operator }
{
    if operator.is_negated || operator.if_exists {
        return false;
    }
    match operator.quantifier {
        None => true,
        Some(Quantifier::ForAnyValue) => true,
        Some(Quantifier::ForAllValues) => false,
    }
}

/// `true` only where each of the values is a text that becomes no pattern.
fn are_unmet<'c>(
    alloc: Global,
    values: &'c [Operand],
    context: &Context<'c>,
    known: &Known<'_>,
) -> Result<bool, OutOfMemory>
    ensures { IfOk result (λ yes. IsTrue yes → All (IsUnmet known.now context.now) values.now) }
{
    for value in values {
        if !is_value_unmet(alloc, value, context, known)? {
            return Ok(false);
        }
    }
    Ok(true)
}

fn is_value_unmet<'c>(
    alloc: Global,
    value: &'c Operand,
    context: &Context<'c>,
    known: &Known<'_>,
) -> Result<bool, OutOfMemory>
    ensures { IfOk result (λ yes. IsTrue yes → IsUnmet known.now context.now value.now) }
{
    match value {
        Operand::Text(text) => is_unresolved(alloc, text, context, known),
        _ => Ok(false),
    }
}

/// `true` only where the text asks for known keys alone, and becomes no pattern by them.
fn is_unresolved<'c>(
    alloc: Global,
    text: &'c Template,
    context: &Context<'c>,
    known: &Known<'_>,
) -> Result<bool, OutOfMemory>
    ensures { IfOk result (λ yes. IsTrue yes → IsUnresolved known.now context.now text.now) }
{
    if text_beyond(text, known) {
        return Ok(false);
    }
    Ok(!resolves(alloc, text, context)?)
}

/// Whether the text becomes a pattern.
fn resolves<'c>(
    alloc: Global,
    text: &'c Template,
    context: &Context<'c>,
) -> Result<bool, OutOfMemory>
    ensures { IfOk result (λ yes. ¬ IsTrue yes → resolved context.now text.now ≡ None) }
{
    match text.form() {
        TemplateForm::Fixed(_) => Ok(true),
        TemplateForm::Open(draft) => Ok(resolve(alloc, draft, context)?.is_some()),
    }
}
