// One value of the context against one value of a condition.
ghost use Rattle.std.specs.Prelude.{◌≡◌, ◌↔◌, ℕ, ℤ, List, IsTrue, IfOk, map};
ghost use Rattle.std.specs.Str.{chars};
ghost use Rattle.iam_value.specs.Address.{Block, Holds};
ghost use Rattle.iam_context.specs.Resolve.{resolved};
ghost use Rattle.iam_glob.specs.Glob.{plain_sign, Equals, Matches};
ghost use Rattle.iam_condition.specs.declared.operator.Base.{Base};
ghost use Rattle.iam_condition.specs.declared.operand.Operand.TheVariants as operand;
ghost use Rattle.iam_match.specs.Code.Asked.{IsAsked, IsComparison};
ghost use Rattle.iam_match.specs.Code.Compared.{ArnFits, IsTextAnswer, TellsOfPattern};
ghost use Rattle.iam_match.specs.Entry.{Ordered, PatternMatches};

use crate::arn::arn_matches;
use crate::asked::Asked;
use iam_condition::{Operand, Order, TextTest};
use iam_context::{Context, lone_value, resolve};
use iam_text::{Arn, Draft, Glob, OutOfMemory, TemplateForm};
use iam_value::{Address, Range};
use std::alloc::Global;

/// Whether a text of the request matches a value of the policy; `None` where the value does not resolve.
pub fn compare<'c>(
    alloc: Global,
    asked: &Asked<'_>,
    value: &'c Operand,
    context: &Context<'c>,
) -> Result<Option<bool>, OutOfMemory>
    ensures { (base : Base) (text : List ℕ) → IsAsked base text asked.now
        → IfOk result (IsComparison context.now base text value.now) }
{
    match asked {
        Asked::Text(text, test) => compare_text(alloc, text, *test, value, context),
        Asked::Arn(arn) => compare_arn(alloc, arn, value, context),
        Asked::Number(number, order) => Ok(Some(is_number(*order, *number, value))),
        Asked::Instant(nanos, order) => Ok(Some(is_instant(*order, *nanos, value))),
        Asked::Truth(truth) => Ok(Some(is_truth(*truth, value))),
        Asked::Bytes(bytes) => Ok(Some(is_bytes(bytes.as_slice(), value))),
        Asked::Address(address) => Ok(Some(holds_address(address, value))),
        Asked::Nothing => Ok(Some(false)),
    }
}

/// Compares a text under a string operator.
fn compare_text<'c>(
    alloc: Global,
    text: &str,
    test: TextTest,
    value: &'c Operand,
    context: &Context<'c>,
) -> Result<Option<bool>, OutOfMemory>
    ensures { IfOk result (IsTextAnswer context.now value.now (λ signs. PatternMatches test signs text.now)) }
{
    match value {
        Operand::Text(template) => match template.form() {
            TemplateForm::Fixed(glob) => Ok(Some(text_matches(glob, text, test))),
            TemplateForm::Open(draft) => open_text(alloc, draft, text, test, context),
        },
        _ => Ok(Some(false)),
    }
}

/// Compares a text with a value that has variables.
fn open_text<'c>(
    alloc: Global,
    draft: &'c Draft,
    text: &str,
    test: TextTest,
    context: &Context<'c>,
) -> Result<Option<bool>, OutOfMemory>
    ensures { IfOk result (TellsOfPattern (resolved context.now draft.now) (λ signs. PatternMatches test signs text.now)) }
{
    match test {
        TextTest::Equals | TextTest::Like => match lone_value(draft, context) {
            Some(Some(value)) => return Ok(Some(is_value(value, text))),
            Some(None) => return Ok(None),
            None => {}
        },
        TextTest::EqualsIgnoreCase => {}
    }
    Ok(resolve(alloc, draft, context)?.map(|glob| text_matches(&glob, text, test)))
}

/// Whether the value of a variable, all of whose characters are given, is the text.
fn is_value(value: &str, text: &str) -> bool
    ensures equals { IsTrue result ↔ Equals (map plain_sign (chars value.now)) (chars text.now) }
    ensures matches { IsTrue result ↔ Matches (map plain_sign (chars value.now)) (chars text.now) }
{
    value == text
}

/// Compares the parts of an ARN.
fn compare_arn<'c>(
    alloc: Global,
    arn: &Option<Arn<'_>>,
    value: &'c Operand,
    context: &Context<'c>,
) -> Result<Option<bool>, OutOfMemory>
    ensures { IfOk result (IsTextAnswer context.now value.now (ArnFits arn.now)) }
{
    match value {
        Operand::Text(template) => match template.form() {
            TemplateForm::Fixed(glob) => Ok(Some(arn_fits(glob, arn))),
            TemplateForm::Open(draft) => match resolve(alloc, draft, context)? {
                Some(glob) => Ok(Some(arn_fits(&glob, arn))),
                None => Ok(None),
            },
        },
        _ => Ok(Some(false)),
    }
}

fn text_matches(glob: &Glob, text: &str, test: TextTest) -> bool
    ensures { IsTrue result ↔ PatternMatches test glob.now text.now }
{
    match test {
        TextTest::Equals => glob.equals(text),
        TextTest::EqualsIgnoreCase => glob.equals_fold(text),
        TextTest::Like => glob.matches(text),
    }
}

fn arn_fits(glob: &Glob, arn: &Option<Arn<'_>>) -> bool
    ensures { IsTrue result ↔ ArnFits arn.now glob.now }
{
    match arn {
        Some(arn) => arn_matches(glob.signs(), arn),
        None => false,
    }
}

fn is_number(order: Order, number: i64, value: &Operand) -> bool
    ensures { IsTrue result ↔ ((m : ℤ) × (value.now ≡ operand.Number m) × Ordered order number m) }
{
    match value {
        Operand::Number(other) => is_ordered(order, i128::from(number), i128::from(*other)),
        _ => false,
    }
}

fn is_instant(order: Order, nanos: i128, value: &Operand) -> bool
    ensures { IsTrue result ↔ ((m : ℤ) × (value.now ≡ operand.Instant m) × Ordered order nanos m) }
{
    match value {
        Operand::Instant(other) => is_ordered(order, nanos, *other.get()),
        _ => false,
    }
}

fn is_ordered(order: Order, own: i128, other: i128) -> bool
    ensures { IsTrue result ↔ Ordered order own other }
{
    match order {
        Order::Equal => own == other,
        Order::Less => own < other,
        Order::AtMost => own <= other,
        Order::Greater => own > other,
        Order::AtLeast => own >= other,
    }
}

/// Whether the value is this truth value.
pub fn is_truth(truth: bool, value: &Operand) -> bool
    ensures { IsTrue result ↔ (value.now ≡ operand.Truth truth) }
{
    match value {
        Operand::Truth(other) => truth == *other,
        _ => false,
    }
}

fn is_bytes(bytes: &[u8], value: &Operand) -> bool
    ensures { IsTrue result ↔ (value.now ≡ operand.Bytes bytes.now) }
{
    match value {
        Operand::Bytes(other) => bytes == other.as_slice(),
        _ => false,
    }
}

fn holds_address(address: &Address, value: &Operand) -> bool
    ensures { IsTrue result ↔ ((range : Block) × (value.now ≡ operand.Range range) × Holds range address.now) }
{
    match value {
        Operand::Range(range) => range.get().holds(address),
        _ => false,
    }
}
