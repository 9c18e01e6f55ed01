// Patterns against ASCII text, byte by byte.
ghost use Rattle.std.specs.Prelude.{◌↔◌, ◌≤◌, ◌<◌, IfSome, IsTrue, length, slice_index};
ghost use Rattle.iam_glob.specs.Signs.{signs_in};
ghost use Rattle.iam_glob.specs.Code.Walk.{Covers, char_in, IsInFront, Walks, found_at, IsFront, Settles, Later, signs_left};

use crate::case::{Case, covers};
use crate::sign::Sign;
use crate::signs::Signs;

/// How far the front of a pattern was walked along a text of ASCII characters.
#[derive(Clone, Copy)]
pub enum Place<'a> {
    /// The signs and the text ended together.
    Whole,
    /// The signs before the first `Any` fit: the signs behind it, and the text that is left.
    Star(Signs<'a>, &'a [u8]),
    /// They do not fit.
    Off,
}

/// Whether the text has an `i`th byte, and it is an ASCII character.
#[inline(always)]
pub fn is_ascii_at(text: &[u8], i: usize) -> bool
    ensures { IsTrue result ↔ ((i < length text.now) × (slice_index text.now i < 128)) }
{
    i < text.len() && text[i] < 128
}

/// Whether the text has an `i`th character, and the sign stands for it.
#[inline(always)]
pub fn covers_at(sign: Sign, text: &[u8], i: usize, case: Case) -> bool
    ensures { IsTrue result ↔ ((i < length text.now) × Covers (char_in case) sign (slice_index text.now i)) }
{
    i < text.len() && covers(sign, char::from(text[i]), case)
}

/// The last sign before the first `Any`, with its place. Another one before the `Any` would do too, and take longer.
fn last_in_front(signs: Signs<'_>) -> Option<(usize, Sign)>
    ensures { IfSome result (λ p. IsInFront (signs_in signs.entry) p.0 p.1) }
{
    let mut last = None;
    for i in 0..signs.len() {
        let sign = signs.at(i);
        if let Sign::Any = sign {
            return last;
        }
        last = Some((i, sign));
    }
    last
}

/// Walks the signs before the first `Any`, each of which stands for one character.
#[inline(always)]
fn walk_front<'a>(signs: Signs<'a>, text: &'a [u8], case: Case) -> Place<'a>
    ensures { IsFront (char_in case) (signs_in signs.entry) text.entry.now (found_at result) }
{
    for i in 0..signs.len() {
        let sign = signs.at(i);
        if let Sign::Any = sign {
            return Place::Star(signs.from(i + 1), &text[i..]);
        }
        if !covers_at(sign, text, i, case) {
            return Place::Off;
        }
    }
    if signs.len() == text.len() {
        Place::Whole
    } else {
        Place::Off
    }
}

/// Walks the signs before the first `Any`: first the last of them alone, which often does not fit.
#[inline(always)]
fn try_front<'a>(
    signs: Signs<'a>,
    last: Option<(usize, Sign)>,
    text: &'a [u8],
    case: Case,
) -> Place<'a>
    requires { IfSome last (λ p. IsInFront (signs_in signs) p.0 p.1) }
    ensures { IsFront (char_in case) (signs_in signs.entry) text.entry.now (found_at result) }
{
    match last {
        Some((at, sign)) if !covers_at(sign, text, at, case) => Place::Off,
        _ => walk_front(signs, text, case),
    }
}

/// The first place in the text from which the front of the signs can be walked.
#[inline(always)]
fn first_place<'a>(signs: Signs<'a>, text: &'a [u8], case: Case) -> Place<'a>
    ensures settles { Settles (char_in case) (Later (Walks (char_in case) (signs_in signs.entry)) text.entry.now) (found_at result) }
    ensures fewer { signs_left (found_at result) ≤ length (signs_in signs.entry) }
{
    let last = last_in_front(signs);
    let mut text = text;
    loop {
        match try_front(signs, last, text, case) {
            Place::Off => {}
            found => return found,
        }
        match text.split_first() {
            Some((_, rest)) => text = rest,
            None => return Place::Off,
        }
    }
}

/// Whether the signs match some end of the text.
#[inline(always)]
pub fn match_end(signs: Signs<'_>, text: &[u8], case: Case) -> bool
    ensures { IsTrue result ↔ Later (Walks (char_in case) (signs_in signs.entry)) text.now }
{
    let mut place = Place::Star(signs, text);
    while let Place::Star(signs, text) = place {
        if signs.is_empty() {
            return true;
        }
        place = first_place(signs, text, case);
    }
    matches!(place, Place::Whole)
}
