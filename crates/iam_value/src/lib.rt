//! The values that texts of policies and requests have: whole numbers, truth values, instants, bytes, addresses and
//! ranges of addresses. A reader answers the value of a text, and `None` where the text has none.
#![tactic(auto)]

ghost use Rattle.std.specs.Prelude.{IfOk, option_map};
ghost use Rattle.iam_value.specs.Reading.{IsReading, IsOnly};
ghost use Rattle.iam_value.specs.Values.{IsBase64, IsTruth, IsWhole};

mod dates;
mod laws;
mod pieces;
mod ranges;

use base64::DecodeAllocError;
use base64::engine::general_purpose::STANDARD;
pub use dates::{moment, stamp};
pub use laws::{one_bytes, one_moment, one_range, one_stamp, one_truth, one_whole};
pub use ranges::{Address, Range};
pub use std::alloc::AllocError as OutOfMemory;
use std::alloc::Global;

/// The whole number that the text writes: an optional `-` and one or more ASCII digits, leading zeros among them.
/// `None` for any other text, and for a number that an `i64` does not hold.
pub fn whole(text: &str) -> Option<i64>
    ensures value { IsReading result (IsWhole text.now) }
    ensures only { IsOnly result (IsWhole text.now) }
{
    if text.starts_with('+') {
        return None;
    }
    text.parse::<i64>().ok()
}

/// The truth value that the text names: `true` or `false`, in any case of letters. `None` for any other text.
pub fn truth(text: &str) -> Option<bool>
    ensures value { IsReading result (IsTruth text.now) }
    ensures only { IsOnly result (IsTruth text.now) }
{
    if text.eq_ignore_ascii_case("true") {
        Some(true)
    } else if text.eq_ignore_ascii_case("false") {
        Some(false)
    } else {
        None
    }
}

/// The bytes whose base64 the text is, with padding (RFC 4648 section 4). `None` where the text encodes no bytes: a
/// character off the alphabet, padding left out or too long, or unused bits that are not zero.
pub fn bytes(alloc: Global, text: &str) -> Result<Option<Vec<u8>>, OutOfMemory>
    ensures value { IfOk result (λ answer. IsReading (option_map (λ v. v.items) answer) (IsBase64 text.now)) }
    ensures only { IfOk result (λ answer. IsOnly (option_map (λ v. v.items) answer) (IsBase64 text.now)) }
{
    match STANDARD.decode(alloc, text.as_bytes()) {
        Ok(found) => Ok(Some(found)),
        Err(DecodeAllocError::OutOfMemory) => Err(OutOfMemory),
        Err(DecodeAllocError::DecodeError(_)) => Ok(None),
    }
}
