// A pattern that is held against many texts.
ghost use Rattle.std.specs.Prelude.{◌≡◌, ◌≢◌, ◌↔◌, ◌++◌, ◌∷◌, ◌≤◌, ℕ, List, IsTrue, IfOk, IfSome, IfNone, MatchOption, drop, false, length, map, take};
ghost use Rattle.std.specs.Str.{chars, IsAscii};
ghost use Rattle.iam_glob.specs.Glob.{Matches, MatchesFold, plain_sign, wild_sign};
ghost use Rattle.iam_glob.specs.Signs.{signs_in};
ghost use Rattle.iam_glob.specs.Code.Compiled.{IsCutAtWildcard, IsWay, before_any};
ghost use Rattle.iam_glob.specs.Code.Walk.{Later, Walks};
ghost use Rattle.iam_glob.specs.declared.sign.Sign.{Sign};
ghost use Rattle.iam_glob.specs.declared.sign.Sign.TheVariants as sign;

use crate::OutOfMemory;
use crate::glob::Glob;
use crate::signs::Signs;
use std::alloc::Global;
use std::marker::Model;

/// A pattern whose pieces were found once, for a pattern that is held against many texts.
#[derive(Drop)]
pub struct Compiled<'a> {
    glob: &'a Glob,
    way: Way<'a>,
}

/// How a text is compared with regard to case. The bytes are those of ASCII characters.
#[derive(Drop)]
enum Way<'a> {
    /// With the only text that matches.
    Literal(&'a [u8]),
    /// With given characters at its front, and any text behind them.
    Front(&'a [u8]),
    /// With given characters at its front, and behind them with signs.
    Walked(&'a [u8], Signs<'a>),
    /// With given characters at its front, behind a `*` with pieces in their order, each before a `*`, and with given
    /// characters at its end.
    Pieces(&'a [u8], Vec<&'a [u8]>, &'a [u8]),
}

impl<'a> Model for Compiled<'a> {
    ghost Value = { List Sign };

    ghost view = { λ c. c.glob.now };

    ghost invariant = { λ c. IsWay c.way c.glob.now };
}

impl<'a> Compiled<'a> {
    /// The pattern, cut into its pieces, which are slices of it.
    pub fn of(alloc: Global, glob: &'a Glob) -> Result<Compiled<'a>, OutOfMemory>
        ensures { IfOk result (λ c. c ≡ glob.entry.now) }
    {
        let way = way_of(alloc, glob.signs())?;
        Ok(Compiled { glob, way })
    }

    /// Whether the whole text matches, with regard to case. It takes no memory.
    pub fn matches(&self, text: &str) -> bool
        ensures { IsTrue result ↔ Matches self.now (chars text.now) }
    {
        match &self.way {
            Way::Literal(literal) => text.as_bytes() == *literal,
            Way::Front(front) => behind(front, text).is_some(),
            Way::Walked(front, signs) => match behind(front, text) {
                Some(rest) => signs.matches(rest),
                None => false,
            },
            Way::Pieces(front, pieces, back) => match behind(front, text) {
                Some(rest) if rest.is_ascii() => end_fits(pieces, back, rest.as_bytes()),
                Some(_) => self.glob.matches(text),
                None => false,
            },
        }
    }

    /// Whether the whole text matches once the ASCII letters of both sides are folded. It takes no memory.
    pub fn matches_fold(&self, text: &str) -> bool
        ensures { IsTrue result ↔ MatchesFold self.now (chars text.now) }
    {
        self.glob.matches_fold(text)
    }
}

/// How texts are compared with these signs.
fn way_of<'a>(alloc: Global, signs: Signs<'a>) -> Result<Way<'a>, OutOfMemory>
    ensures { IfOk result (λ way. IsWay way (signs_in signs.entry)) }
{
    match signs.ascii() {
        Some((text, true)) => way_of_wild(alloc, text),
        Some((text, false)) => Ok(Way::Literal(text)),
        None => Ok(Way::Walked(&[], signs)),
    }
}

/// The same of the signs of an ASCII text in which `*` and `?` are wildcards.
fn way_of_wild<'a>(alloc: Global, text: &'a [u8]) -> Result<Way<'a>, OutOfMemory>
    requires { IsAscii text.now }
    ensures { IfOk result (λ way. IsWay way (map wild_sign text.entry.now)) }
{
    let (front, rest) = cut_wildcard(text);
    match rest.split_first() {
        None => Ok(Way::Literal(front)),
        Some((b'*', [])) => Ok(Way::Front(front)),
        Some((b'*', behind)) => way_behind(alloc, front, rest, behind),
        Some(_) => Ok(Way::Walked(front, Signs::of_bytes(rest, true))),
    }
}

/// The same where the first wildcard is a `*`: by pieces where there is no `?`.
fn way_behind<'a>(
    alloc: Global,
    front: &'a [u8],
    starred: &'a [u8],
    behind: &'a [u8],
) -> Result<Way<'a>, OutOfMemory>
    requires ascii { IsAscii front.now }
    requires star { starred.now ≡ 42 ∷ behind.now }
    ensures { IfOk result (λ way. IsWay way (map plain_sign front.entry.now ++ map wild_sign starred.entry.now)) }
{
    let mut pieces = Vec::new(alloc);
    let mut left = behind;
    loop {
        let (piece, rest) = cut_wildcard(left);
        match rest.split_first() {
            None => return Ok(Way::Pieces(front, pieces, piece)),
            Some((b'*', next)) => {
                pieces.push(piece)?;
                left = next;
            }
            Some(_) => return Ok(Way::Walked(front, Signs::of_bytes(starred, true))),
        }
    }
}

/// The characters before the first wildcard of an ASCII text, and what is left from there on.
fn cut_wildcard(text: &[u8]) -> (&[u8], &[u8])
    ensures { IsCutAtWildcard text.entry.now result.0.now result.1.now }
{
    let len = front_len(text);
    (&text[..len], &text[len..])
}

/// How many characters stand before the first wildcard.
fn front_len(text: &[u8]) -> usize
    ensures within { result ≤ length text.now }
    ensures given { map wild_sign (take result text.now) ≡ map plain_sign (take result text.now) }
{
    for (i, character) in text.iter().enumerate() {
        if is_wildcard(*character) {
            return i;
        }
    }
    text.len()
}

fn is_wildcard(character: u8) -> bool
    ensures { result ≡ false → wild_sign character ≡ plain_sign character }
{
    character == b'*' || character == b'?'
}

/// What is left of the text behind its front, where it begins with that.
#[inline(always)]
fn behind<'t>(front: &[u8], text: &'t str) -> Option<&'t str>
    requires { IsAscii front.now }
    ensures { MatchOption result ((rest : List ℕ) → chars text.entry.now ≢ front.now ++ rest)
        (λ rest. chars text.entry.now ≡ front.now ++ chars rest.now) }
{
    if begins_with(text.as_bytes(), front) {
        Some(&text[front.len()..])
    } else {
        None
    }
}

/// Whether the text begins with the front. Most texts are ruled out by its last byte.
#[inline(always)]
fn begins_with(text: &[u8], front: &[u8]) -> bool
    ensures bound { IsTrue result → length front.now ≤ length text.now }
    ensures begins { IsTrue result → text.now ≡ front.now ++ drop (length front.now) text.now }
    ensures off { result ≡ false → (rest : List ℕ) → text.now ≢ front.now ++ rest }
{
    !is_off(front, text) && text.starts_with(front)
}

/// `true` only where the last byte of the front is not at its place in the text.
#[inline(always)]
fn is_off(front: &[u8], text: &[u8]) -> bool
    ensures { IsTrue result → (rest : List ℕ) → text.now ≢ front.now ++ rest }
{
    match front.split_last() {
        Some((last, before)) => text.get(before.len()) != Some(last),
        None => false,
    }
}

/// Whether some end of an ASCII text is these pieces in their order, with any text behind each, and then the back.
#[inline(always)]
fn end_fits(pieces: &[&[u8]], back: &[u8], text: &[u8]) -> bool
    ensures { IsTrue result ↔ Later (Walks (λ c. c) (before_any pieces.now ++ map plain_sign back.now)) text.now }
{
    match text.strip_suffix(back) {
        Some(inside) => pieces_fit(pieces, inside),
        None => false,
    }
}

/// Whether the pieces stand in the text one behind the other. The first place of each is as good as any later one.
fn pieces_fit(pieces: &[&[u8]], text: &[u8]) -> bool
    ensures { IsTrue result ↔ Later (Walks (λ c. c) (before_any pieces.now)) text.now }
{
    let mut rest = text;
    for piece in pieces {
        match behind_first(piece, rest) {
            Some(behind) => rest = behind,
            None => return false,
        }
    }
    true
}

/// What is left behind the first place of the piece in the text.
fn behind_first<'t>(piece: &[u8], text: &'t [u8]) -> Option<&'t [u8]>
    ensures some { IfSome result (λ rest. (signs : List Sign)
        → Later (Walks (λ c. c) (map plain_sign piece.now ++ (sign.Any ∷ signs))) text.entry.now
        ↔ Later (Walks (λ c. c) signs) rest.now) }
    ensures none { IfNone result ((signs : List Sign)
        → ¬ Later (Walks (λ c. c) (map plain_sign piece.now ++ (sign.Any ∷ signs))) text.entry.now) }
{
    let mut left = text;
    loop {
        if let Some(rest) = without_front(piece, left) {
            return Some(rest);
        }
        match left.split_first() {
            Some((_, rest)) => left = rest,
            None => return None,
        }
    }
}

/// What is left of the text behind the piece, where it begins with that. Most places are ruled out by one byte.
#[inline(always)]
fn without_front<'t>(piece: &[u8], text: &'t [u8]) -> Option<&'t [u8]>
    ensures { MatchOption result ((rest : List ℕ) → text.entry.now ≢ piece.now ++ rest)
        (λ rest. text.entry.now ≡ piece.now ++ rest.now) }
{
    match (piece.first(), text.first()) {
        (Some(one), Some(other)) if one != other => None,
        _ => text.strip_prefix(piece),
    }
}
