//! Instants and the texts of them.
ghost use Rattle.std.specs.Prelude.{◌≡◌, ◌≤◌, ◌<◌, pos, ◌+ℤ◌, ◌-ℤ◌, ◌*ℤ◌, IfOk, IfSome, string_bytes};
ghost use Rattle.jiff_core.specs.Calendar.{IsBetween};
ghost use Rattle.iam_value.specs.Reading.{IsReading, IsOnly};
ghost use Rattle.iam_value.specs.Moment.{IsMoment, IsDayNumber, IsStamp, IsDigits, IsField, IsFraction, IsDay, IsSeconds, IsMinutes, IsClock, IsSpan, IsUtc, IsShifted, IsLocal, IsDateTime};

use crate::pieces::{cut, number};
use crate::{OutOfMemory, whole};
use jiff_core::civil::Date;
use std::alloc::Global;

/// The text `YYYY-MM-DDThh:mm:ssZ` of the instant that many seconds after 1970-01-01T00:00:00Z, up to the last second
/// of the year 9999. [`moment`] reads it as that instant.
pub fn stamp(alloc: Global, seconds: i64) -> Result<String, OutOfMemory>
    requires { IsBetween (pos 0) (pos 253_402_300_799) seconds }
    ensures written { IfOk result (λ text. IsStamp seconds (string_bytes text)) }
    ensures instant { IfOk result (λ text. IsMoment (string_bytes text) (seconds *ℤ pos 1_000_000_000)) }
{
    let seconds = seconds as u64;
    let (year, month, day) = date_after((seconds / 86_400) as u32);
    let hour = seconds / 3_600 % 24;
    let minute = seconds / 60 % 60;
    let second = seconds % 60;
    format!(in alloc; "{year:04}-{month:02}-{day:02}T{hour:02}:{minute:02}:{second:02}Z")
}

/// The year, the month and the day that many days after 1970-01-01.
fn date_after(days: u32) -> (u16, u8, u8)
    requires { days ≤ 2_932_896 }
    ensures { IsDayNumber result.0 result.1 result.2 (pos days) }
{
    let date = Date::from_days_since_min(days + 4_371_587);
    (date.year as u16, date.month, date.day)
}

/// The number of a numeral of that many decimal digits.
fn digits(bytes: &[u8], count: usize) -> Option<u32>
    requires { count ≤ 9 }
    ensures { IsReading result (IsDigits count bytes.now) }
{
    if bytes.len() != count {
        return None;
    }
    number(bytes)
}

/// The number of two decimal digits, if it is at most `most`.
fn field(bytes: &[u8], most: u32) -> Option<u32>
    ensures { IsReading result (IsField most bytes.now) }
{
    digits(bytes, 2).filter(|&value| value <= most)
}

/// The number of the day, if the calendar has it.
fn day_number(year: u32, month: u32, day: u32) -> Option<i32>
    requires year { year ≤ 9999 }
    requires month { month ≤ 99 }
    requires day { day ≤ 99 }
    ensures { IsReading result (IsDayNumber year month day) }
{
    match jiff::civil::Date::new(year as i16, month as i8, day as i8) {
        Ok(date) => Some(date.to_plain().to_unix_epoch_day()),
        Err(_) => None,
    }
}

/// The nanoseconds of the digits after a point.
fn fraction(bytes: &[u8]) -> Option<u32>
    ensures value { IsReading result (IsFraction bytes.now) }
    ensures below { IfSome result (λ n. n < 1_000_000_000) }
{
    let value = number(bytes)?;
    let scale = 10u32.pow(9 - bytes.len() as u32);
    Some(value * scale)
}

/// The number of the day `YYYY-MM-DD`, if the calendar has it.
fn day(bytes: &[u8]) -> Option<i32>
    ensures { IsReading result (IsDay bytes.now) }
{
    let (years, rest) = cut(bytes, b'-')?;
    let (months, days) = cut(rest, b'-')?;
    let year = digits(years, 4)?;
    let month = digits(months, 2)?;
    let day = digits(days, 2)?;
    day_number(year, month, day)
}

/// The nanoseconds of `ss` or `ss.f`.
fn seconds(bytes: &[u8]) -> Option<u64>
    ensures value { IsReading result (IsSeconds bytes.now) }
    ensures below { IfSome result (λ n. n < 60_000_000_000) }
{
    match cut(bytes, b'.') {
        Some((second, places)) => {
            let second = u64::from(field(second, 59)?);
            let part = u64::from(fraction(places)?);
            Some(second * 1_000_000_000 + part)
        }
        None => {
            let second = u64::from(field(bytes, 59)?);
            Some(second * 1_000_000_000)
        }
    }
}

/// The nanoseconds of `mm`, `mm:ss` or `mm:ss.f`.
fn minutes(bytes: &[u8]) -> Option<u64>
    ensures value { IsReading result (IsMinutes bytes.now) }
    ensures below { IfSome result (λ n. n < 3_600_000_000_000) }
{
    match cut(bytes, b':') {
        Some((minute, rest)) => {
            let minute = u64::from(field(minute, 59)?);
            let rest = seconds(rest)?;
            Some(minute * 60_000_000_000 + rest)
        }
        None => {
            let minute = u64::from(field(bytes, 59)?);
            Some(minute * 60_000_000_000)
        }
    }
}

/// The nanoseconds from midnight of `hh:mm`, `hh:mm:ss` or `hh:mm:ss.f`.
fn clock(bytes: &[u8]) -> Option<u64>
    ensures value { IsReading result (IsClock bytes.now) }
    ensures below { IfSome result (λ n. n < 86_400_000_000_000) }
{
    let (hour, rest) = cut(bytes, b':')?;
    let hour = u64::from(field(hour, 23)?);
    let rest = minutes(rest)?;
    Some(hour * 3_600_000_000_000 + rest)
}

/// The minutes of `hh:mm`.
fn span(bytes: &[u8]) -> Option<u32>
    ensures value { IsReading result (IsSpan bytes.now) }
    ensures below { IfSome result (λ n. n < 1_440) }
{
    let (hour, minute) = cut(bytes, b':')?;
    let hour = field(hour, 23)?;
    let minute = field(minute, 59)?;
    Some(hour * 60 + minute)
}

/// The nanoseconds from midnight of a time of day with `Z` after it.
fn utc(bytes: &[u8]) -> Option<u64>
    ensures value { IsReading result (IsUtc bytes.now) }
    ensures below { IfSome result (λ n. n < 86_400_000_000_000) }
{
    let (time, rest) = cut(bytes, b'Z')?;
    if !rest.is_empty() {
        return None;
    }
    clock(time)
}

/// The nanoseconds from midnight and the minutes of the offset, of a time of day, the sign and `hh:mm`.
fn shifted(bytes: &[u8], sign: u8) -> Option<(u64, u32)>
    requires { sign < 46 }
    ensures value { IsReading result (λ r. IsShifted sign bytes.now r.0 r.1) }
    ensures below { IfSome result (λ r. (r.0 < 86_400_000_000_000) × (r.1 < 1_440)) }
{
    let (time, shift) = cut(bytes, sign)?;
    let time = clock(time)?;
    let shift = span(shift)?;
    Some((time, shift))
}

/// The nanoseconds from midnight and the minutes of the offset, of a time of day with its offset.
fn local(bytes: &[u8]) -> Option<(u64, i32)>
    ensures value { IsReading result (λ r. IsLocal bytes.now r.0 r.1) }
    ensures below { IfSome result (λ r. r.0 < 86_400_000_000_000) }
{
    if let Some((time, shift)) = shifted(bytes, b'+') {
        return Some((time, shift as i32));
    }
    if let Some((time, shift)) = shifted(bytes, b'-') {
        return Some((time, -(shift as i32)));
    }
    let time = utc(bytes)?;
    Some((time, 0))
}

/// The nanoseconds from 1970-01-01T00:00:00Z of a date, `T` and a time of day with its offset.
fn date_time(bytes: &[u8]) -> Option<i128>
    ensures { IsReading result (IsDateTime bytes.now) }
{
    let (date, rest) = cut(bytes, b'T')?;
    let number = day(date)?;
    let (time, offset) = local(rest)?;
    Some(instant(number, time, offset))
}

/// The nanoseconds from 1970-01-01T00:00:00Z of a day's number, nanoseconds from midnight and minutes of offset.
fn instant(number: i32, time: u64, offset: i32) -> i128
    ensures { result ≡ (number *ℤ pos 86_400_000_000_000 +ℤ pos time) -ℤ offset *ℤ pos 60_000_000_000 }
{
    let civil = i128::from(number) * 86_400_000_000_000 + i128::from(time);
    civil - i128::from(offset) * 60_000_000_000
}

/// The instant that the text names, in nanoseconds from 1970-01-01T00:00:00Z. The text is a whole number of seconds,
/// a date `YYYY-MM-DD` for its midnight in UTC, or a date, `T`, `hh:mm`, `hh:mm:ss` or `hh:mm:ss` with a fraction of
/// one to nine digits, and `Z`, `+hh:mm` or `-hh:mm`. `None` for any other text.
pub fn moment(text: &str) -> Option<i128>
    ensures value { IsReading result (IsMoment text.now) }
    ensures only { IsOnly result (IsMoment text.now) }
{
    if let Some(seconds) = whole(text) {
        return Some(i128::from(seconds) * 1_000_000_000);
    }
    let bytes = text.as_bytes();
    if let Some(number) = day(bytes) {
        return Some(i128::from(number) * 86_400_000_000_000);
    }
    date_time(bytes)
}
