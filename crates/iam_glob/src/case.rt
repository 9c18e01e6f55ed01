// Comparing characters, with and without regard to the case of ASCII letters.
ghost use Rattle.std.specs.Prelude.{◌≡◌, ◌↔◌, IsTrue};
ghost use Rattle.iam_glob.specs.Code.Walk.{Covers, char_in};

use crate::sign::Sign;

/// How two characters are compared.
#[derive(Clone, Copy)]
pub enum Case {
    Kept,
    /// ASCII letters without regard to case.
    Folded,
}

#[inline(always)]
fn read(character: char, case: Case) -> char
    ensures { result ≡ char_in case character }
{
    match case {
        Case::Kept => character,
        Case::Folded => character.to_ascii_lowercase(),
    }
}

/// Whether the sign stands for this one character.
#[inline(always)]
pub fn covers(sign: Sign, character: char, case: Case) -> bool
    ensures { IsTrue result ↔ Covers (char_in case) sign character }
{
    match sign {
        Sign::Given(given) => read(given, case) == read(character, case),
        Sign::One => true,
        Sign::Any => false,
    }
}
