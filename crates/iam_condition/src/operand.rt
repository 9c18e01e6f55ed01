// The values of a condition, as its operator reads them.
ghost use Rattle.std.specs.Prelude.{◌≡◌, IfOk};
ghost use Rattle.iam_value.specs.Reading.{IsReading};
ghost use Rattle.iam_condition.specs.declared.operator.Base.TheVariants.{Number, Date, Truth, Binary, Address};
ghost use Rattle.iam_condition.specs.declared.operator.Order.{Order};
ghost use Rattle.iam_condition.specs.Operand.{IsValueOperand, has_texts, text_form, is_wild};

use crate::apart::Apart;
use crate::operator::{Base, TextTest};
use iam_text::{Items, OutOfMemory, Template};
use iam_value::{Range, bytes, moment, truth, whole};
use std::alloc::Global;

/// A value of an entry, read as its operator reads it.
#[derive(Debug, Drop)]
pub enum Operand {
    /// A text, which may hold variables.
    Text(Template),
    /// A whole number.
    Number(i64),
    /// An instant, in nanoseconds from 1970-01-01T00:00:00Z.
    Instant(Apart<i128>),
    /// A truth value.
    Truth(bool),
    /// Bytes.
    Bytes(Items<u8>),
    /// A range of addresses.
    Range(Apart<Range>),
}

impl Operand {
    /// The value of a text under an operator whose values are no texts; `None` where the text has none.
    pub(crate) fn read_value(
        alloc: Global,
        base: Base,
        text: &str,
    ) -> Result<Option<Operand>, OutOfMemory>
        ensures { IfOk result (λ found. IsReading found (IsValueOperand base text.now)) }
    {
        match base {
            Base::Text(_) | Base::Arn => Ok(None),
            Base::Number(_) => Ok(read_number(text)),
            Base::Date(_) => read_date(alloc, text),
            Base::Truth | Base::Null => Ok(read_truth(text)),
            Base::Binary => read_bytes(alloc, text),
            Base::Address => read_range(alloc, text),
        }
    }
}

impl Base {
    /// Where the values are texts that may hold variables: whether `*` and `?` are wildcards there.
    pub(crate) fn text_form(self) -> Option<bool>
        ensures { result ≡ text_form self }
    {
        match self {
            Base::Text(test) => Some(test.is_wild()),
            Base::Arn => Some(true),
            _ => None,
        }
    }

    /// Whether the values are texts that may hold variables.
    pub(crate) fn has_texts(self) -> bool
        ensures { result ≡ has_texts self }
    {
        self.text_form().is_some()
    }
}

impl TextTest {
    /// Whether `*` and `?` are wildcards.
    fn is_wild(self) -> bool
        ensures { result ≡ is_wild self }
    {
        matches!(self, TextTest::Like)
    }
}

fn read_number(text: &str) -> Option<Operand>
    ensures { (order : Order) → IsReading result (IsValueOperand (Number order) text.now) }
{
    match whole(text) {
        Some(number) => Some(Operand::Number(number)),
        None => None,
    }
}

fn read_date(alloc: Global, text: &str) -> Result<Option<Operand>, OutOfMemory>
    ensures { (order : Order) → IfOk result (λ found. IsReading found (IsValueOperand (Date order) text.now)) }
{
    match moment(text) {
        Some(instant) => Ok(Some(Operand::Instant(Apart::new(alloc, instant)?))),
        None => Ok(None),
    }
}

fn read_truth(text: &str) -> Option<Operand>
    ensures { IsReading result (IsValueOperand Truth text.now) }
{
    match truth(text) {
        Some(value) => Some(Operand::Truth(value)),
        None => None,
    }
}

fn read_bytes(alloc: Global, text: &str) -> Result<Option<Operand>, OutOfMemory>
    ensures { IfOk result (λ found. IsReading found (IsValueOperand Binary text.now)) }
{
    match bytes(alloc, text)? {
        Some(value) => Ok(Some(Operand::Bytes(Items::from_vec(value)))),
        None => Ok(None),
    }
}

fn read_range(alloc: Global, text: &str) -> Result<Option<Operand>, OutOfMemory>
    ensures { IfOk result (λ found. IsReading found (IsValueOperand Address text.now)) }
{
    match Range::read(text) {
        Some(range) => Ok(Some(Operand::Range(Apart::new(alloc, range)?))),
        None => Ok(None),
    }
}
