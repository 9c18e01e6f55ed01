// Whether whatever matches one value of a condition matches another one: a bound further out, or a pattern that leaves more open.
ghost use Rattle.std.specs.Prelude.{◌≡◌, All, ℕ, ℤ, IfOk, IfSome, IsTrue, List, map, string_bytes};
ghost use Rattle.std.specs.Str.{chars};
ghost use Rattle.iam_condition.specs.declared.operand.Operand.TheVariants as operand;
ghost use Rattle.iam_glob.specs.Glob.{Matches, wild_sign};
ghost use Rattle.iam_glob.specs.Signs.{signs_in};
ghost use Rattle.iam_open_changes.specs.Code.Implied.{IsFurther, IsRun, IsWider, IsWiderDate, IsWiderNumber, IsWiderPieces, IsWiderText};

use iam_condition::{Base, Operand, Order, TextTest};
use iam_glob::{Glob, Sign, Signs};
use iam_layers::OutOfMemory;
use iam_text::{Template, TemplateForm};
use std::alloc::Global;

/// `true` only where each text of a request that matches the first value under such an operator matches the second one too.
pub fn is_wider(
    alloc: Global,
    base: Base,
    one: &Operand,
    other: &Operand,
) -> Result<bool, OutOfMemory>
    ensures { IfOk result (λ yes. IsTrue yes → IsWider base one.now other.now) }
{
    match base {
        Base::Text(TextTest::Like) => is_wider_text(alloc, one, other),
        Base::Number(order) => Ok(is_wider_number(order, one, other)),
        Base::Date(order) => Ok(is_wider_date(order, one, other)),
        _ => Ok(false),
    }
}

fn is_wider_number(order: Order, one: &Operand, other: &Operand) -> bool
    ensures { IsTrue result → IsWiderNumber order one.now other.now }
{
    match one {
        Operand::Number(bound) => is_number_beyond(order, *bound, other),
        _ => false,
    }
}

/// `true` only where the value is a number, to which whatever stands so that stands so to this bound.
fn is_number_beyond(order: Order, bound: i64, value: &Operand) -> bool
    ensures { IsTrue result → (wide : ℤ) × (value.now ≡ operand.Number wide) × IsFurther order bound wide }
{
    match value {
        Operand::Number(wide) => is_further(order, i128::from(bound), i128::from(*wide)),
        _ => false,
    }
}

fn is_wider_date(order: Order, one: &Operand, other: &Operand) -> bool
    ensures { IsTrue result → IsWiderDate order one.now other.now }
{
    match (one, other) {
        (Operand::Instant(one), Operand::Instant(other)) => {
            is_further(order, *one.get(), *other.get())
        }
        _ => false,
    }
}

/// `true` only where whatever stands so to the first bound stands so to the second one.
fn is_further(order: Order, one: i128, other: i128) -> bool
    ensures { IsTrue result → IsFurther order one other }
{
    match order {
        Order::Equal => one == other,
        Order::Less | Order::AtMost => one <= other,
        Order::Greater | Order::AtLeast => other <= one,
    }
}

fn is_wider_text(alloc: Global, one: &Operand, other: &Operand) -> Result<bool, OutOfMemory>
    ensures { IfOk result (λ yes. IsTrue yes → IsWiderText one.now other.now) }
{
    match (one, other) {
        (Operand::Text(one), Operand::Text(other)) => is_wider_template(alloc, one, other),
        _ => Ok(false),
    }
}

/// The same of texts; those that have variables are not compared.
fn is_wider_template(alloc: Global, one: &Template, other: &Template) -> Result<bool, OutOfMemory>
    ensures { IfOk result (λ yes. IsTrue yes → IsWiderPieces one.now other.now) }
{
    match (one.form(), other.form()) {
        (TemplateForm::Fixed(one), TemplateForm::Fixed(other)) => is_wider_glob(alloc, one, other),
        _ => Ok(false),
    }
}

/// `true` only where the second pattern matches each text that the first one matches. It is seen where the second has no `?`, and matches
/// the first as it is written: a `*` that takes the signs of the other takes whatever these match.
fn is_wider_glob(alloc: Global, one: &Glob, other: &Glob) -> Result<bool, OutOfMemory>
    ensures { IfOk result (λ yes. IsTrue yes → (text : List ℕ) → Matches one.now text → Matches other.now text) }
{
    if !are_runs(other.signs()) {
        return Ok(false);
    }
    match written(alloc, one.signs())? {
        Some(text) => Ok(other.matches(text.as_str())),
        None => Ok(false),
    }
}

/// Whether each of the signs is `*` or a character that stands for itself.
fn are_runs(signs: Signs<'_>) -> bool
    ensures { IsTrue result → All IsRun (signs_in signs.entry) }
{
    for i in 0..signs.len() {
        if !is_run(signs.at(i)) {
            return false;
        }
    }
    true
}

fn is_run(sign: Sign) -> bool
    ensures { IsTrue result → IsRun sign }
{
    match sign {
        Sign::Any => true,
        Sign::One => false,
        Sign::Given(character) => character != '*' && character != '?',
    }
}

/// The text whose pattern these are; `None` says nothing.
fn written(alloc: Global, signs: Signs<'_>) -> Result<Option<String>, OutOfMemory>
    ensures { IfOk result (λ found. IfSome found (λ text. map wild_sign (chars (string_bytes text)) ≡ signs_in signs.entry)) }
{
    let mut text = String::with_capacity(alloc, signs.len())?;
    for i in 0..signs.len() {
        let Some(character) = character_of(signs.at(i)) else {
            return Ok(None);
        };
        text.push(character)?;
    }
    Ok(Some(text))
}

/// The character that is written for a sign; `None` for a `*` or a `?` that stands for itself.
fn character_of(sign: Sign) -> Option<char>
    ensures { IfSome result (λ character. wild_sign character ≡ sign) }
{
    match sign {
        Sign::Any => Some('*'),
        Sign::One => Some('?'),
        Sign::Given('*') => None,
        Sign::Given('?') => None,
        Sign::Given(character) => Some(character),
    }
}
