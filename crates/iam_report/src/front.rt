// The front of a row: a number between texts, made in bytes that are used again.
ghost use Rattle.std.specs.Prelude.{◌≡◌, ◌++◌, ◌+◌, ◌≤◌, ◌<◌, ◌^◌, IfSome, IsTrue, decimal, ℕ, false, length, take};
ghost use Rattle.iam_report.specs.Code.Front.{IsPut, FrontValue, IsOrdered, front_of_bytes};

use itoa::{Buffer, write_digits};
use std::marker::Model;

/// The greatest number has so many digits: so many bytes stand before all texts, where one that has more digits than the last
/// may spill.
const DIGITS: usize = 20;

/// So many bytes of a row are made at once.
const ROOM: usize = 1024;

/// A number between two texts. Another number of as many digits is put in its place.
#[derive(Drop)]
pub struct Front {
    bytes: [u8; ROOM],
    // Where the number begins, where it ends, and where the text behind it ends.
    start: usize,
    stop: usize,
    end: usize,
}

impl Model for Front {
    ghost Value = { FrontValue };

    ghost view = { λ front. front_of_bytes front.bytes front.start front.stop front.end };

    ghost invariant = { λ front. IsOrdered front.start front.stop front.end };
}

/// Puts a text into bytes from a place on, where there is room for it, and tells where it ends.
fn put_text(bytes: &mut [u8; ROOM], at: usize, text: &[u8]) -> Option<usize>
    requires { at ≤ 1024 }
    ensures { IfSome result (IsPut bytes.old bytes.new at text.now) }
{
    if text.len() > ROOM - at {
        return None;
    }
    bytes[at..at + text.len()].copy_from_slice(text);
    Some(at + text.len())
}

/// Puts two texts into bytes, as [`put_text`] does.
fn put_two(bytes: &mut [u8; ROOM], at: usize, first: &str, second: &str) -> Option<usize>
    requires { at ≤ 1024 }
    ensures { IfSome result (IsPut bytes.old bytes.new at (first.now ++ second.now)) }
{
    let between = put_text(bytes, at, first.as_bytes())?;
    put_text(bytes, between, second.as_bytes())
}

impl Front {
    /// A number without digits between empty texts.
    pub fn new() -> Front {
        Front {
            bytes: [0; ROOM],
            start: DIGITS,
            stop: DIGITS,
            end: DIGITS,
        }
    }

    /// Puts a number between texts, two on each side, where there is room for all.
    pub fn fill(
        &mut self,
        first: &str,
        second: &str,
        number: u64,
        third: &str,
        fourth: &str,
    ) -> bool
        ensures { IsTrue result → self.new ≡ record { before = first.now ++ second.now; number = decimal number; behind = third.now ++ fourth.now } }
    {
        let mut buffer = Buffer::new();
        let Some(start) = put_two(&mut self.bytes, DIGITS, first, second) else {
            return false;
        };
        let digits = buffer.format(number);
        let Some(stop) = put_text(&mut self.bytes, start, digits.as_bytes()) else {
            return false;
        };
        let Some(end) = put_two(&mut self.bytes, stop, third, fourth) else {
            return false;
        };
        self.start = start;
        self.stop = stop;
        self.end = end;
        true
    }

    /// Puts another number in place of the last, where it has as many digits.
    pub fn renumber(&mut self, number: u64) -> bool
        ensures { IsTrue result → self.new ≡ record self.old { number = decimal number } }
    {
        let start = write_digits(number, &mut self.bytes, self.stop);
        start == self.start
    }

    /// Counts the number up in place, if not more than its last digit is a 9.
    #[inline(always)]
    pub fn count_up(&mut self) -> bool
        ensures counted { IsTrue result → (n : ℕ) → n + 1 < 2 ^ 64 → self.old.number ≡ decimal n → self.new ≡ record self.old { number = decimal (n + 1) } }
        ensures none { result ≡ false → self.new ≡ self.old }
    {
        let digit = self.bytes[self.stop - 1];
        if digit >= b'9' {
            return self.carry();
        }
        self.bytes[self.stop - 1] = digit + 1;
        true
    }

    /// The same where the last digit is a 9, and the one before it is none.
    fn carry(&mut self) -> bool
        ensures counted { IsTrue result → (n : ℕ) → n + 1 < 2 ^ 64 → self.old.number ≡ decimal n → self.new ≡ record self.old { number = decimal (n + 1) } }
        ensures none { result ≡ false → self.new ≡ self.old }
    {
        if self.stop - self.start < 2 || self.bytes[self.stop - 1] != b'9' {
            return false;
        }
        let tens = self.bytes[self.stop - 2];
        if tens >= b'9' {
            return false;
        }
        self.bytes[self.stop - 2] = tens + 1;
        self.bytes[self.stop - 1] = b'0';
        true
    }

    /// Puts two texts in place of those behind the number, where there is room for them.
    pub fn refill(&mut self, first: &str, second: &str) -> bool
        ensures { IsTrue result → self.new ≡ record self.old { behind = first.now ++ second.now } }
    {
        let Some(end) = put_two(&mut self.bytes, self.stop, first, second) else {
            return false;
        };
        self.end = end;
        true
    }

    /// How many bytes the number and its texts have.
    #[inline(always)]
    pub fn len(&self) -> usize
        ensures { result ≡ length (self.now.before ++ (self.now.number ++ self.now.behind)) }
    {
        self.end - DIGITS
    }

    /// The number with its texts, and what bytes stand behind them.
    #[inline(always)]
    pub fn bytes(&self) -> &[u8]
        ensures text { take (length (self.now.before ++ (self.now.number ++ self.now.behind))) result.now ≡ self.now.before ++ (self.now.number ++ self.now.behind) }
        ensures many { length result.now ≡ 1004 }
    {
        &self.bytes[DIGITS..]
    }

    /// The number with its texts.
    pub fn text(&self) -> &[u8]
        ensures { result.now ≡ self.now.before ++ (self.now.number ++ self.now.behind) }
    {
        &self.bytes[DIGITS..self.end]
    }
}
