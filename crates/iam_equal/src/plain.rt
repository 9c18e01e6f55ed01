// Whether plain texts stand for the same signs, character by character.
ghost use Rattle.std.specs.Prelude.{◌≡◌, ◌↔◌, ◌∷◌, [], IsTrue, MatchOption, map};
ghost use Rattle.std.specs.Str.{chars};
ghost use Rattle.iam_glob.specs.Glob.{sign_of};
ghost use Rattle.iam_glob.specs.Signs.{signs_in};

use iam_glob::{Signs, sign_of};

/// A text whose characters are signs of a pattern.
#[derive(Clone, Copy)]
pub struct Plain<'a> {
    pub text: &'a str,
    /// Whether `*` and `?` are wildcards there.
    pub wild: bool,
}

/// Whether both texts stand for the same signs.
pub fn are_same_plain(one: Plain<'_>, other: Plain<'_>) -> bool
    ensures { IsTrue result ↔ map (sign_of one.entry.wild) (chars one.entry.text.now) ≡ map (sign_of other.entry.wild) (chars other.entry.text.now) }
{
    let mut left = one.text;
    let mut other_left = other.text;
    while let Some((character, behind)) = first_character(left) {
        let Some((other_character, other_behind)) = first_character(other_left) else {
            return false;
        };
        if sign_of(character, one.wild) != sign_of(other_character, other.wild) {
            return false;
        }
        left = behind;
        other_left = other_behind;
    }
    first_character(other_left).is_none()
}

/// Whether the text stands for these signs.
pub fn has_signs(plain: Plain<'_>, signs: Signs<'_>) -> bool
    ensures { IsTrue result ↔ map (sign_of plain.entry.wild) (chars plain.entry.text.now) ≡ signs_in signs.entry }
{
    let mut left = plain.text;
    let mut signs_left = signs;
    while let Some((character, behind)) = first_character(left) {
        if signs_left.is_empty() || signs_left.at(0) != sign_of(character, plain.wild) {
            return false;
        }
        left = behind;
        signs_left = signs_left.from(1);
    }
    signs_left.is_empty()
}

/// The first character of a text, and what is behind it.
fn first_character(text: &str) -> Option<(char, &str)>
    ensures { MatchOption result (chars text.entry.now ≡ []) (λ p. chars text.entry.now ≡ p.0 ∷ chars p.1.now) }
{
    let mut behind = text.chars();
    match behind.next() {
        Some(first) => Some((first, behind.as_str())),
        None => None,
    }
}
