// The signs of a pattern, as they are lent.
ghost use Rattle.std.specs.Prelude.{◌≡◌, ◌<◌, ◌≤◌, ◌↔◌, ◌==◌, IfSome, IsTrue, drop, length, map, slice_index_or, take};
ghost use Rattle.std.specs.Str.{chars, IsAscii};
ghost use Rattle.iam_glob.specs.Glob.{Matches, sign_of};
ghost use Rattle.iam_glob.specs.Signs.{signs_in};
ghost use Rattle.iam_glob.specs.Code.Walk.{char_in, Later, Walks};
ghost use Rattle.iam_glob.specs.declared.sign.Sign.TheVariants as sign;

use crate::ascii::match_end;
use crate::case::Case;
use crate::sign::Sign;
use crate::walk::matches;

/// The signs of a pattern, or some of them in a row, lent.
#[derive(Clone, Copy)]
pub struct Signs<'a> {
    kind: Lent<'a>,
}

#[derive(Clone, Copy)]
enum Lent<'a> {
    /// Those of an ASCII text in which `*` and `?` are wildcards.
    Wild(&'a [u8]),
    /// Those of an ASCII text whose characters are all given.
    Plain(&'a [u8]),
    /// These signs.
    Listed(&'a [Sign]),
}

impl<'a> Signs<'a> {
    /// The signs of an ASCII text, by whether `*` and `?` are wildcards there.
    #[inline(always)]
    pub(crate) fn of_bytes(text: &'a [u8], wild: bool) -> Signs<'a>
        ensures { signs_in result ≡ map (sign_of wild) text.entry.now }
    {
        Signs {
            kind: if wild {
                Lent::Wild(text)
            } else {
                Lent::Plain(text)
            },
        }
    }

    /// These signs.
    #[inline(always)]
    pub(crate) fn listed(signs: &'a [Sign]) -> Signs<'a>
        ensures { signs_in result ≡ signs.entry.now }
    {
        Signs {
            kind: Lent::Listed(signs),
        }
    }

    /// The ASCII text whose signs these are, and whether `*` and `?` are wildcards there; `None` says nothing.
    pub(crate) fn ascii(self) -> Option<(&'a [u8], bool)>
        ensures { IfSome result (λ p. IsAscii p.0.now × (signs_in self.entry ≡ map (sign_of p.1) p.0.now)) }
    {
        match self.kind {
            Lent::Wild(text) if text.is_ascii() => Some((text, true)),
            Lent::Plain(text) if text.is_ascii() => Some((text, false)),
            _ => None,
        }
    }

    /// How many signs there are.
    #[inline(always)]
    pub fn len(self) -> usize
        ensures { result ≡ length (signs_in self.entry) }
    {
        match self.kind {
            Lent::Wild(text) => text.len(),
            Lent::Plain(text) => text.len(),
            Lent::Listed(signs) => signs.len(),
        }
    }

    /// Whether there is no sign.
    #[inline(always)]
    pub fn is_empty(self) -> bool
        ensures { result ≡ (length (signs_in self.entry) == 0) }
    {
        self.len() == 0
    }

    /// The sign at this place, which has to be one of theirs.
    #[inline(always)]
    pub fn at(self, i: usize) -> Sign
        requires within { i < length (signs_in self) }
        ensures { result ≡ slice_index_or (signs_in self.entry) i sign.Any }
    {
        match self.kind {
            Lent::Wild(text) => Sign::wild(char::from(text[i])),
            Lent::Plain(text) => Sign::Given(char::from(text[i])),
            Lent::Listed(signs) => signs[i],
        }
    }

    /// The signs from this place on, which may be their end.
    #[inline(always)]
    pub fn from(self, i: usize) -> Signs<'a>
        requires within { i ≤ length (signs_in self) }
        ensures { signs_in result ≡ drop i (signs_in self.entry) }
    {
        match self.kind {
            Lent::Wild(text) => Signs::of_bytes(&text[i..], true),
            Lent::Plain(text) => Signs::of_bytes(&text[i..], false),
            Lent::Listed(signs) => Signs::listed(&signs[i..]),
        }
    }

    /// The signs before this place, which may be their end.
    #[inline(always)]
    pub fn until(self, i: usize) -> Signs<'a>
        requires within { i ≤ length (signs_in self) }
        ensures { signs_in result ≡ take i (signs_in self.entry) }
    {
        match self.kind {
            Lent::Wild(text) => Signs::of_bytes(&text[..i], true),
            Lent::Plain(text) => Signs::of_bytes(&text[..i], false),
            Lent::Listed(signs) => Signs::listed(&signs[..i]),
        }
    }

    /// Whether the signs match some end of a text of ASCII characters. How they are kept is asked once, and not at each sign.
    pub(crate) fn matches_end(self, text: &[u8], case: Case) -> bool
        ensures { IsTrue result ↔ Later (Walks (char_in case) (signs_in self.entry)) text.now }
    {
        match self.kind {
            Lent::Wild(signs) => match_end(Signs::of_bytes(signs, true), text, case),
            Lent::Plain(signs) => match_end(Signs::of_bytes(signs, false), text, case),
            Lent::Listed(signs) => match_end(Signs::listed(signs), text, case),
        }
    }

    /// Whether the signs match the whole text, with regard to case.
    pub fn matches(self, text: &str) -> bool
        ensures { IsTrue result ↔ Matches (signs_in self.entry) (chars text.now) }
    {
        matches(self, text, Case::Kept)
    }
}
