// A pattern, and whether it matches a text.
ghost use Rattle.std.specs.Prelude.{◌≡◌, ◌↔◌, IsTrue, IfOk, map, List};
ghost use Rattle.std.specs.Str.{chars};
ghost use Rattle.iam_glob.specs.Glob.{wild_sign, plain_sign, Equals, EqualsFold, Matches, MatchesFold, sign_of};
ghost use Rattle.iam_glob.specs.Code.Globs.{kept_signs};
ghost use Rattle.iam_glob.specs.Signs.{signs_in};
ghost use Rattle.iam_glob.specs.declared.sign.Sign.{Sign};

use crate::OutOfMemory;
use crate::case::Case;
use crate::short::Short;
use crate::sign::{Sign, add_characters};
use crate::signs::Signs;
use crate::walk::{equals, matches};
use std::alloc::Global;
use std::hash::{FoldHasher, Hasher};
use std::marker::Model;

/// A pattern over texts: a list of signs.
///
/// A character is one Unicode scalar value. The pattern of an ASCII text, as most are, is kept in a byte a character, and
/// in place where it is short.
#[derive(Debug, Drop)]
pub struct Glob {
    kind: Kind,
}

#[derive(Debug, Drop)]
enum Kind {
    /// The signs of a short ASCII text, and whether `*` and `?` are wildcards there.
    Short(bool, Short),
    /// The same of a longer one.
    Long(bool, Vec<u8>),
    /// These signs.
    Listed(Vec<Sign>),
}

impl Model for Glob {
    ghost Value = { List Sign };

    ghost view = { λ g. kept_signs g.kind };
}

impl Glob {
    /// The pattern of a text in which `*` and `?` are wildcards.
    pub fn read(alloc: Global, text: &str) -> Result<Glob, OutOfMemory>
        ensures { IfOk result (λ g. g ≡ map wild_sign (chars text.now)) }
    {
        Glob::of_text(alloc, text, true)
    }

    /// The pattern of a text whose characters are all given, `*` and `?` too.
    pub fn plain(alloc: Global, text: &str) -> Result<Glob, OutOfMemory>
        ensures { IfOk result (λ g. g ≡ map plain_sign (chars text.now)) }
    {
        Glob::of_text(alloc, text, false)
    }

    /// The pattern of a text in which `*` and `?` are wildcards where `wild` says so.
    pub fn of_text(alloc: Global, text: &str, wild: bool) -> Result<Glob, OutOfMemory>
        ensures { IfOk result (λ g. g ≡ map (sign_of wild) (chars text.now)) }
    {
        let kind = if text.is_ascii() {
            kind_of(alloc, text.as_bytes(), wild)?
        } else {
            Kind::Listed(read_signs(alloc, text, wild)?)
        };
        Ok(Glob { kind })
    }

    /// The pattern of these signs.
    pub fn of(alloc: Global, signs: &[Sign]) -> Result<Glob, OutOfMemory>
        ensures { IfOk result (λ g. g ≡ signs.now) }
    {
        Ok(Glob::from_vec(Vec::from_slice(alloc, signs)?))
    }

    /// The pattern of these signs, uncopied.
    pub fn from_vec(signs: Vec<Sign>) -> Glob
        ensures { result ≡ signs.items }
    {
        Glob {
            kind: Kind::Listed(signs),
        }
    }

    /// The signs, in order.
    #[inline(always)]
    pub fn signs(&self) -> Signs<'_>
        ensures { signs_in result ≡ self.now }
    {
        match &self.kind {
            Kind::Short(wild, text) => Signs::of_bytes(text.as_slice(), *wild),
            Kind::Long(wild, text) => Signs::of_bytes(text.as_slice(), *wild),
            Kind::Listed(signs) => Signs::listed(signs.as_slice()),
        }
    }

    /// Whether the whole text matches, with regard to case.
    pub fn matches(&self, text: &str) -> bool
        ensures { IsTrue result ↔ Matches self.now (chars text.now) }
    {
        matches(self.signs(), text, Case::Kept)
    }

    /// Whether the whole text matches once the ASCII letters of both sides are folded.
    pub fn matches_fold(&self, text: &str) -> bool
        ensures { IsTrue result ↔ MatchesFold self.now (chars text.now) }
    {
        matches(self.signs(), text, Case::Folded)
    }

    /// Whether the pattern is the text itself, without a wildcard, with regard to case.
    pub fn equals(&self, text: &str) -> bool
        ensures { IsTrue result ↔ Equals self.now (chars text.now) }
    {
        equals(self.signs(), text, Case::Kept)
    }

    /// Whether the pattern is the text itself, without a wildcard, once the ASCII letters of both sides are folded.
    pub fn equals_fold(&self, text: &str) -> bool
        ensures { IsTrue result ↔ EqualsFold self.now (chars text.now) }
    {
        equals(self.signs(), text, Case::Folded)
    }

    /// `true` only where both are the same pattern; `false` says nothing, since like patterns may be kept unlike.
    pub fn is_same(&self, other: &Glob) -> bool
        ensures { IsTrue result → self.now ≡ other.now }
    {
        match (&self.kind, &other.kind) {
            (Kind::Short(wild, one), Kind::Short(other_wild, other)) => {
                wild == other_wild && one.as_slice() == other.as_slice()
            }
            (Kind::Long(wild, one), Kind::Long(other_wild, other)) => {
                wild == other_wild && one.as_slice() == other.as_slice()
            }
            (Kind::Listed(one), Kind::Listed(other)) => one.as_slice() == other.as_slice(),
            _ => false,
        }
    }

    /// A number that tells most lists of patterns apart, where the last of them is this one and those before it have this
    /// number. Nothing is claimed of it.
    pub fn print(&self, print: u64) -> u64 {
        match &self.kind {
            Kind::Short(wild, text) => mix(print, text_number(text.as_slice(), *wild)),
            Kind::Long(wild, text) => mix(print, text_number(text.as_slice(), *wild)),
            Kind::Listed(signs) => {
                let mut print = print;
                for sign in signs.as_slice() {
                    print = mix(print, sign_number(*sign));
                }
                print
            }
        }
    }
}

/// How the signs of an ASCII text are kept: in place where it is short.
fn kind_of(alloc: Global, text: &[u8], wild: bool) -> Result<Kind, OutOfMemory>
    ensures { IfOk result (λ kind. kept_signs kind ≡ map (sign_of wild) text.now) }
{
    match Short::of(text) {
        Some(short) => Ok(Kind::Short(wild, short)),
        None => Ok(Kind::Long(wild, Vec::from_slice(alloc, text)?)),
    }
}

/// The signs of the characters, in no more memory than they want.
fn read_signs(alloc: Global, text: &str, wild: bool) -> Result<Vec<Sign>, OutOfMemory>
    ensures { IfOk result (λ signs. signs.items ≡ map (sign_of wild) (chars text.now)) }
{
    let mut signs = Vec::with_capacity(alloc, text.len())?;
    add_characters(&mut signs, text, wild)?;
    signs.shrink_to_fit();
    Ok(signs)
}

fn mix(print: u64, number: u64) -> u64 {
    (print ^ number)
        .wrapping_mul(0x9e37_79b9_7f4a_7c15)
        .rotate_left(23)
}

fn text_number(text: &[u8], wild: bool) -> u64 {
    let mut hasher = FoldHasher::default();
    hasher.write(text);
    hasher.finish() ^ wild as u64
}

fn sign_number(sign: Sign) -> u64 {
    match sign {
        Sign::Given(character) => character as u64,
        Sign::One => 1 << 32,
        Sign::Any => 1 << 33,
    }
}
