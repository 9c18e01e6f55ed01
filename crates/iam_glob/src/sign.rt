// What a pattern is made of.
ghost use Rattle.std.specs.Prelude.{◌≡◌, ◌++◌, OnOk, map};
ghost use Rattle.std.specs.Str.{chars};
ghost use Rattle.iam_glob.specs.Glob.{sign_of, wild_sign};

use crate::OutOfMemory;

/// One sign of a pattern.
#[derive(Clone, Copy, Debug, PartialEq, Eq)]
pub enum Sign {
    /// This character.
    Given(char),
    /// Any one character: `?`.
    One,
    /// Any run of characters, also none: `*`.
    Any,
}

impl Sign {
    /// The sign of a character where wildcards stand.
    #[inline(always)]
    pub fn wild(character: char) -> Sign
        ensures { result ≡ wild_sign character }
    {
        match character {
            '*' => Sign::Any,
            '?' => Sign::One,
            given => Sign::Given(given),
        }
    }
}

/// The sign of a character, by whether wildcards stand there.
#[inline(always)]
pub fn sign_of(character: char, wild: bool) -> Sign
    ensures { result ≡ sign_of wild character }
{
    if wild {
        Sign::wild(character)
    } else {
        Sign::Given(character)
    }
}

/// Adds the signs of the characters of a text, with `*` and `?` as wildcards where `wild` says so.
///
/// A text of ASCII characters alone, as most are, is read byte by byte.
pub fn add_signs(signs: &mut Vec<Sign>, text: &str, wild: bool) -> Result<(), OutOfMemory>
    ensures { OnOk result (signs.new.items ≡ signs.old.items ++ map (sign_of wild) (chars text.now)) }
{
    if text.is_ascii() {
        add_bytes(signs, text.as_bytes(), wild)
    } else {
        add_characters(signs, text, wild)
    }
}

fn add_bytes(signs: &mut Vec<Sign>, text: &[u8], wild: bool) -> Result<(), OutOfMemory>
    ensures { OnOk result (signs.new.items ≡ signs.old.items ++ map (sign_of wild) text.now) }
{
    signs.reserve(text.len())?;
    for &byte in text {
        signs.push_reserved(sign_of(char::from(byte), wild));
    }
    Ok(())
}

/// Adds the signs of the characters of a text, read character by character.
pub fn add_characters(signs: &mut Vec<Sign>, text: &str, wild: bool) -> Result<(), OutOfMemory>
    ensures { OnOk result (signs.new.items ≡ signs.old.items ++ map (sign_of wild) (chars text.now)) }
{
    signs.reserve(text.len())?;
    for character in text.chars() {
        signs.push(sign_of(character, wild))?;
    }
    Ok(())
}
