// A text of the context, as an operator reads it.
ghost use Rattle.std.specs.Prelude.{IfOk};
ghost use Rattle.iam_match.specs.Code.Asked.{IsAsked};

use iam_condition::{Base, Order, TextTest};
use iam_text::{Arn, Items, OutOfMemory};
use iam_value::{Address, bytes, moment, truth, whole};
use std::alloc::Global;

/// A text of a request, as an operator reads it once for all its values.
#[derive(Drop)]
pub enum Asked<'t> {
    Text(&'t str, TextTest),
    /// The parts of an ARN; `None` where the text is none.
    Arn(Option<Arn<'t>>),
    Number(i64, Order),
    Instant(i128, Order),
    Truth(bool),
    Bytes(Items<u8>),
    Address(Address),
    /// Off the operator's grammar: no value matches it.
    Nothing,
}

impl<'t> Asked<'t> {
    /// Reads a text of the request.
    pub fn read(alloc: Global, base: Base, text: &'t str) -> Result<Asked<'t>, OutOfMemory>
        ensures { IfOk result (IsAsked base text.entry.now) }
    {
        match base {
            Base::Text(test) => Ok(Asked::Text(text, test)),
            Base::Arn => Ok(Asked::Arn(Arn::cut(text))),
            Base::Number(order) => match whole(text) {
                Some(number) => Ok(Asked::Number(number, order)),
                None => Ok(Asked::Nothing),
            },
            Base::Date(order) => match moment(text) {
                Some(nanos) => Ok(Asked::Instant(nanos, order)),
                None => Ok(Asked::Nothing),
            },
            Base::Truth => match truth(text) {
                Some(value) => Ok(Asked::Truth(value)),
                None => Ok(Asked::Nothing),
            },
            Base::Binary => match bytes(alloc, text)? {
                Some(found) => Ok(Asked::Bytes(Items::from_vec(found))),
                None => Ok(Asked::Nothing),
            },
            Base::Address => match Address::read(text) {
                Some(address) => Ok(Asked::Address(address)),
                None => Ok(Asked::Nothing),
            },
            Base::Null => Ok(Asked::Nothing),
        }
    }
}
