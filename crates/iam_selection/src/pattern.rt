// The pattern that a text of a command line is.
ghost use Rattle.std.specs.Prelude.{◌≡◌, ◌≢◌, ◌↔◌, ◌≤◌, ◌∷◌, All, IfOk, IsTrue, chars, drop, length};
ghost use Rattle.iam_selection.specs.Selection.{is_escapable, pattern_of, signs_of};

use crate::laws::reads_as_policies;
use iam_glob::Sign;
use iam_text::{Glob, OutOfMemory};
use std::alloc::Global;

/// The pattern of a text in which `*` and `?` are wildcards. A `\` before one of these, or before another `\`, gives that
/// character; elsewhere it stands for itself.
pub fn pattern_of(alloc: Global, text: &str) -> Result<Glob, OutOfMemory>
    ensures { IfOk result (λ glob. glob ≡ pattern_of text.now) }
{
    reads_as_policies();
    let characters = characters(alloc, text)?;
    if has_no_escape(characters.as_slice()) {
        // As most are; it is kept in its bytes.
        return Glob::read(alloc, text);
    }
    Ok(Glob::from_vec(signs_of(alloc, characters.as_slice())?))
}

/// The signs of characters.
fn signs_of(alloc: Global, characters: &[char]) -> Result<Vec<Sign>, OutOfMemory>
    ensures { IfOk result (λ signs. signs.items ≡ signs_of characters.now) }
{
    let mut signs = Vec::with_capacity(alloc, characters.len())?;
    let mut at = 0;
    while at < characters.len() {
        let (sign, count) = first_sign(&characters[at..]);
        signs.push(sign)?;
        at += count;
    }
    Ok(signs)
}

fn characters(alloc: Global, text: &str) -> Result<Vec<char>, OutOfMemory>
    ensures { IfOk result (λ characters. characters.items ≡ chars text.now) }
{
    text.chars().collect(alloc)
}

/// Whether no `\` stands there.
fn has_no_escape(characters: &[char]) -> bool
    ensures { IsTrue result ↔ All (λ c. c ≢ 92) characters.now }
{
    characters.iter().all(|&character| character != '\\')
}

/// Whether a `\` before the character gives it.
fn is_escapable(character: char) -> bool
    ensures { result ≡ is_escapable character }
{
    character == '*' || character == '?' || character == '\\'
}

/// The first sign of some characters, and how many of them it is.
fn first_sign(characters: &[char]) -> (Sign, usize)
    requires { 1 ≤ length characters.now }
    ensures sign { signs_of characters.now ≡ result.0 ∷ signs_of (drop result.1 characters.now) }
    ensures some { 1 ≤ result.1 }
    ensures within { result.1 ≤ length characters.now }
{
    match characters {
        ['\\', escaped, ..] if is_escapable(*escaped) => (Sign::Given(*escaped), 2),
        _ => (Sign::wild(characters[0]), 1),
    }
}
