//! The names of operators.
ghost use Rattle.std.specs.Prelude.{◌≡◌, map, option_map};
ghost use Rattle.std.specs.List.{find};
ghost use Rattle.std.specs.Str.{bytes_eq};
ghost use Rattle.iam_condition.specs.Operator.{before_if_exists, behind_quantifier, operator_of, single_operator};
ghost use Rattle.iam_condition.specs.Code.Names.{base_among, row_of, text_before, text_behind};

use crate::operator::{Base, Operator, Order, Quantifier, TextTest};

/// Each name without what stands before and behind it, its base, and whether it negates that. `Null` is none of them.
const ROWS: [(&str, Base, bool); 26] = [
    ("StringEquals", Base::Text(TextTest::Equals), false),
    ("StringNotEquals", Base::Text(TextTest::Equals), true),
    (
        "StringEqualsIgnoreCase",
        Base::Text(TextTest::EqualsIgnoreCase),
        false,
    ),
    (
        "StringNotEqualsIgnoreCase",
        Base::Text(TextTest::EqualsIgnoreCase),
        true,
    ),
    ("StringLike", Base::Text(TextTest::Like), false),
    ("StringNotLike", Base::Text(TextTest::Like), true),
    ("NumericEquals", Base::Number(Order::Equal), false),
    ("NumericNotEquals", Base::Number(Order::Equal), true),
    ("NumericLessThan", Base::Number(Order::Less), false),
    ("NumericLessThanEquals", Base::Number(Order::AtMost), false),
    ("NumericGreaterThan", Base::Number(Order::Greater), false),
    (
        "NumericGreaterThanEquals",
        Base::Number(Order::AtLeast),
        false,
    ),
    ("DateEquals", Base::Date(Order::Equal), false),
    ("DateNotEquals", Base::Date(Order::Equal), true),
    ("DateLessThan", Base::Date(Order::Less), false),
    ("DateLessThanEquals", Base::Date(Order::AtMost), false),
    ("DateGreaterThan", Base::Date(Order::Greater), false),
    ("DateGreaterThanEquals", Base::Date(Order::AtLeast), false),
    ("Bool", Base::Truth, false),
    ("BinaryEquals", Base::Binary, false),
    ("IpAddress", Base::Address, false),
    ("NotIpAddress", Base::Address, true),
    ("ArnEquals", Base::Arn, false),
    ("ArnNotEquals", Base::Arn, true),
    ("ArnLike", Base::Arn, false),
    ("ArnNotLike", Base::Arn, true),
];

/// What follows the word, where the text begins with it.
fn text_behind<'a>(text: &'a str, word: &str) -> Option<&'a str>
    ensures { option_map (λ rest. rest.now) result ≡ text_behind text.entry.now word.now }
{
    text.strip_prefix(word)
}

/// What stands before the word, where the text ends with it.
fn text_before<'a>(text: &'a str, word: &str) -> Option<&'a str>
    ensures { option_map (λ front. front.now) result ≡ text_before text.entry.now word.now }
{
    text.strip_suffix(word)
}

/// What the quantifier is that the name begins with, and what follows it.
fn behind_quantifier(name: &str) -> (Option<Quantifier>, &str)
    ensures { (result.0, result.1.now) ≡ behind_quantifier name.entry.now }
{
    if let Some(rest) = text_behind(name, "ForAllValues:") {
        return (Some(Quantifier::ForAllValues), rest);
    }
    match text_behind(name, "ForAnyValue:") {
        Some(rest) => (Some(Quantifier::ForAnyValue), rest),
        None => (None, name),
    }
}

/// What stands before `IfExists`, and whether the name ends with that.
fn before_if_exists(name: &str) -> (&str, bool)
    ensures { (result.0.now, result.1) ≡ before_if_exists name.entry.now }
{
    match text_before(name, "IfExists") {
        Some(front) => (front, true),
        None => (name, false),
    }
}

/// The row of a name among these.
fn found<'r>(rows: &[(&'r str, Base, bool)], name: &str) -> Option<(&'r str, Base, bool)>
    ensures { result ≡ find (λ row. bytes_eq name.now row.0.now) rows.now }
{
    rows.iter().copied().find(|row| name == row.0)
}

/// The base of a name among these, and whether it is negated.
fn base_among(rows: &[(&str, Base, bool)], name: &str) -> Option<(Base, bool)>
    ensures { result ≡ base_among (map row_of rows.now) name.now }
{
    let (_, base, is_negated) = found(rows, name)?;
    Some((base, is_negated))
}

/// The operator of a name without its quantifier.
fn single_operator(quantifier: Option<Quantifier>, name: &str) -> Option<Operator>
    ensures { result ≡ single_operator quantifier (before_if_exists name.now) }
{
    let (front, if_exists) = before_if_exists(name);
    let (base, is_negated) = base_among(&ROWS, front)?;
    Some(Operator {
        quantifier,
        base,
        is_negated,
        if_exists,
    })
}

/// The operator of a name: `Null`, or a name of the table, which `ForAllValues:` or `ForAnyValue:` may precede and
/// `IfExists` may follow. `None` for any other text.
///
/// AWS IAM User Guide, "IAM JSON policy elements: Condition operators".
#[tactic(auto, unfolding(crate::specs::Operator::operator_of))]
pub fn operator_of(name: &str) -> Option<Operator>
    ensures { result ≡ operator_of name.now }
{
    if name == "Null" {
        return Some(Operator {
            quantifier: None,
            base: Base::Null,
            is_negated: false,
            if_exists: false,
        });
    }
    let (quantifier, rest) = behind_quantifier(name);
    single_operator(quantifier, rest)
}
