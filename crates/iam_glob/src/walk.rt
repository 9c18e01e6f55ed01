// The matcher.
ghost use Rattle.std.specs.Prelude.{◌↔◌, ◌≤◌, IsTrue, IfSome, IfNone, length, map};
ghost use Rattle.std.specs.Str.{chars};
ghost use Rattle.iam_glob.specs.Glob.{Equals, sign_by};
ghost use Rattle.iam_glob.specs.Signs.{signs_in};
ghost use Rattle.iam_glob.specs.Code.Walk.{AreGiven, char_in, ComesBack, GoesOn, Stops, StopsBack, Walks, found_in, IsFront, Settles, Later, signs_left};

use crate::ascii;
use crate::case::{Case, covers};
use crate::sign::Sign;
use crate::signs::Signs;

/// How far the front of a pattern was walked along a text.
#[derive(Clone, Copy)]
pub enum Front<'a> {
    /// The signs and the text ended together.
    Whole,
    /// The signs before the first `Any` fit: the signs behind it, and the text that is left.
    Star(Signs<'a>, &'a str),
    /// They do not fit.
    Off,
}

/// What is left of the text behind its first character, where the sign stands for that one.
#[inline(always)]
fn behind_one<'a>(sign: Sign, text: &'a str, case: Case) -> Option<&'a str>
    ensures some { IfSome result (λ rest. GoesOn (char_in case) sign (chars text.entry.now) (chars rest.now)) }
    ensures none { IfNone result (Stops (char_in case) sign (chars text.entry.now)) }
{
    let mut rest = text.chars();
    match rest.next() {
        Some(next) => {
            if covers(sign, next, case) {
                Some(rest.as_str())
            } else {
                None
            }
        }
        None => None,
    }
}

/// What is left of the text before its last character, where the sign stands for that one.
#[inline(always)]
fn before_one<'a>(sign: Sign, text: &'a str, case: Case) -> Option<&'a str>
    ensures some { IfSome result (λ rest. ComesBack (char_in case) sign (chars text.entry.now) (chars rest.now)) }
    ensures none { IfNone result (StopsBack (char_in case) sign (chars text.entry.now)) }
{
    let mut rest = text.chars();
    match rest.next_back() {
        Some(last) => {
            let before = rest.as_str();
            if covers(sign, last, case) {
                Some(before)
            } else {
                None
            }
        }
        None => None,
    }
}

/// Walks the signs behind the last `Any` from the end, each of which stands for one character: the signs and the text
/// that are left, or `None` where they do not fit.
#[inline(always)]
fn walk_back<'a>(signs: Signs<'a>, text: &'a str, case: Case) -> Option<(Signs<'a>, &'a str)>
    ensures some { IfSome result (λ p. Walks (char_in case) (signs_in signs.entry) (chars text.entry.now) ↔ Walks (char_in case) (signs_in p.0) (chars p.1.now)) }
    ensures none { IfNone result (¬ Walks (char_in case) (signs_in signs.entry) (chars text.entry.now)) }
{
    let mut len = signs.len();
    let mut text = text;
    while len > 0 {
        let last = signs.at(len - 1);
        if let Sign::Any = last {
            return Some((signs.until(len), text));
        }
        match before_one(last, text, case) {
            Some(rest) => text = rest,
            None => return None,
        }
        len -= 1;
    }
    Some((signs.until(len), text))
}

/// Walks the signs before the first `Any` as long as the text has ASCII characters: the signs and the text that are left,
/// or `None` where they do not fit.
#[inline(always)]
fn walk_ascii<'a>(signs: Signs<'a>, text: &'a str, case: Case) -> Option<(Signs<'a>, &'a str)>
    ensures some { IfSome result (λ p. Walks (char_in case) (signs_in signs.entry) (chars text.entry.now) ↔ Walks (char_in case) (signs_in p.0) (chars p.1.now)) }
    ensures none { IfNone result (¬ Walks (char_in case) (signs_in signs.entry) (chars text.entry.now)) }
{
    let bytes = text.as_bytes();
    for i in 0..signs.len() {
        let sign = signs.at(i);
        if let Sign::Any = sign {
            return Some((signs.from(i), &text[i..]));
        }
        if !ascii::is_ascii_at(bytes, i) {
            return Some((signs.from(i), &text[i..]));
        }
        if !ascii::covers_at(sign, bytes, i, case) {
            return None;
        }
    }
    Some((signs.from(signs.len()), &text[signs.len()..]))
}

/// Walks the signs before the first `Any`, each of which stands for one character.
#[inline(always)]
fn walk_front<'a>(signs: Signs<'a>, text: &'a str, case: Case) -> Front<'a>
    ensures { IsFront (char_in case) (signs_in signs.entry) (chars text.entry.now) (found_in result) }
{
    let mut text = text;
    for i in 0..signs.len() {
        let sign = signs.at(i);
        if let Sign::Any = sign {
            return Front::Star(signs.from(i + 1), text);
        }
        match behind_one(sign, text, case) {
            Some(rest) => text = rest,
            None => return Front::Off,
        }
    }
    if text.is_empty() {
        Front::Whole
    } else {
        Front::Off
    }
}

/// The first place in the text from which the front of the signs can be walked.
fn first_place<'a>(signs: Signs<'a>, text: &'a str, case: Case) -> Front<'a>
    ensures settles { Settles (char_in case) (Later (Walks (char_in case) (signs_in signs.entry)) (chars text.entry.now)) (found_in result) }
    ensures fewer { signs_left (found_in result) ≤ length (signs_in signs.entry) }
{
    let mut text = text;
    loop {
        match walk_front(signs, text, case) {
            Front::Off => {}
            found => return found,
        }
        match behind_one(Sign::One, text, case) {
            Some(rest) => text = rest,
            None => return Front::Off,
        }
    }
}

/// Whether the signs match some end of the text.
///
/// Each `Any` gives up its text for good once the signs up to the next `Any` fit somewhere, so at each
/// position a character is compared at most once with each sign (the count is not proved).
fn match_end(signs: Signs<'_>, text: &str, case: Case) -> bool
    ensures { IsTrue result ↔ Later (Walks (char_in case) (signs_in signs.entry)) (chars text.now) }
{
    let mut place = Front::Star(signs, text);
    while let Front::Star(signs, text) = place {
        place = first_place(signs, text, case);
    }
    matches!(place, Front::Whole)
}

/// Whether the signs match some end of the text. One of ASCII characters alone, as most are, is walked byte by byte.
fn end_matches(signs: Signs<'_>, text: &str, case: Case) -> bool
    ensures { IsTrue result ↔ Later (Walks (char_in case) (signs_in signs.entry)) (chars text.now) }
{
    if signs.is_empty() {
        true
    } else if text.is_ascii() {
        signs.matches_end(text.as_bytes(), case)
    } else {
        match_end(signs, text, case)
    }
}

/// Whether the signs match the whole text.
#[inline(always)]
fn walk(signs: Signs<'_>, text: &str, case: Case) -> bool
    ensures { IsTrue result ↔ Walks (char_in case) (signs_in signs.entry) (chars text.now) }
{
    match walk_front(signs, text, case) {
        Front::Whole => true,
        Front::Star(signs, text) => end_matches(signs, text, case),
        Front::Off => false,
    }
}

/// Whether the signs match the whole text. What stands behind the last `Any` is walked first, from the end, since most
/// patterns that do not match are refused there or at the ASCII characters with which the text begins.
#[inline(always)]
pub fn matches(signs: Signs<'_>, text: &str, case: Case) -> bool
    ensures { IsTrue result ↔ Walks (char_in case) (signs_in signs.entry) (chars text.now) }
{
    match walk_back(signs, text, case) {
        Some((signs, text)) => match walk_ascii(signs, text, case) {
            Some((signs, text)) => walk(signs, text, case),
            None => false,
        },
        None => false,
    }
}

/// Whether each sign is a given character.
fn are_given(signs: Signs<'_>) -> bool
    ensures { IsTrue result ↔ AreGiven (signs_in signs.entry) }
{
    for i in 0..signs.len() {
        match signs.at(i) {
            Sign::Given(_) => {}
            Sign::One | Sign::Any => return false,
        }
    }
    true
}

/// Whether the signs are the characters of the text, each given.
pub fn equals(signs: Signs<'_>, text: &str, case: Case) -> bool
    ensures { IsTrue result ↔ Equals (map (sign_by (char_in case)) (signs_in signs.entry)) (map (char_in case) (chars text.now)) }
{
    matches(signs, text, case) && are_given(signs)
}
