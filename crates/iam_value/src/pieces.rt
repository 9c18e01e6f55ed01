//! Pieces of a text: what stands before and after a separator, and digits.
ghost use Rattle.std.specs.Prelude.{MatchOption};
ghost use Rattle.iam_value.specs.Reading.{IsReading};
ghost use Rattle.iam_value.specs.Pieces.{IsNumber, IsOctet, IsCutAt, Lacks};

/// What stands before and after the first separator, if there is one.
pub(crate) fn cut(bytes: &[u8], separator: u8) -> Option<(&[u8], &[u8])>
    ensures { MatchOption result (Lacks separator bytes.now) (λ r. IsCutAt separator bytes.now r.0.now r.1.now) }
{
    let at = bytes.iter().position(|byte| *byte == separator)?;
    Some((&bytes[..at], &bytes[at + 1..]))
}

/// The number of a decimal numeral of at most nine digits.
pub(crate) fn number(bytes: &[u8]) -> Option<u32>
    ensures { IsReading result (IsNumber bytes.now) }
{
    if bytes.is_empty() || bytes.len() > 9 {
        return None;
    }
    let mut value = 0;
    for byte in bytes {
        let digit = char::from(*byte).to_digit(10)?;
        value = value * 10 + digit;
    }
    Some(value)
}

/// A decimal number of 0 to 255 without leading zeros.
pub(crate) fn octet(bytes: &[u8]) -> Option<u32>
    ensures { IsReading result (IsOctet bytes.now) }
{
    if bytes.len() > 1 && bytes[0] == b'0' {
        return None;
    }
    let value = number(bytes)?;
    if value > 255 {
        return None;
    }
    Some(value)
}
