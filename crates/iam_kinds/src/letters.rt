// The letters that a walk tries behind a text.
ghost use Rattle.std.specs.Prelude.{[], ◌≡◌, ◌==◌, ◌↔◌, ◌⊎◌, ◌<◌, ℕ, Contains, IfNone, IfOk, IfSome, IsTrue, OnOk, false, is_some, map, true};
ghost use Rattle.std.specs.List.{list_any};
ghost use Rattle.std.specs.List.Sorted.{IsStrictlyIncreasing};
ghost use Rattle.std.specs.Char.{IsScalar};
ghost use Rattle.iam_kinds.specs.Letters.{HasFree, IsAdded, IsFreeAt, IsOtherAt, Stands, begins_with, goes_on, is_free, is_other, tails_of};
ghost use Rattle.iam_kinds.specs.Spelled.{IsFirst, first_letters};
ghost use Rattle.iam_kinds.specs.Code.{SameElements, next_stage};

use crate::OutOfMemory;
use crate::grammar::Stage;
use std::alloc::Global;

/// Those of the characters that no pattern waits for which are tried first.
const FIRST_OTHERS: &str = "xabcdefghijklmnopqrstuvwyz0123456789";

/// How many codes characters have.
const CODES: u32 = 0x11_0000;

/// What is known behind a text: how far the grammar is read, which characters are waited for, and how the named texts go on that
/// begin with it.
#[derive(Clone, Copy)]
pub struct Behind<'a> {
    pub stage: Stage,
    pub waited: &'a [char],
    pub tails: &'a [&'a [char]],
}

impl Behind<'_> {
    /// Whether the grammar goes on with the letter and nothing waits for it.
    fn is_other(&self, letter: char) -> bool
        ensures { result ≡ is_other self.now.stage self.now.waited.now letter }
    {
        self.stage.next(letter).is_some() && !self.waited.contains(&letter)
    }

    /// Whether it is such a letter with which no named text goes on.
    fn is_free(&self, letter: char) -> bool
        ensures { result ≡ is_free self.now.stage self.now.waited.now (map (λ t. t.now) self.now.tails.now) letter }
    {
        self.is_other(letter) && !goes_on(self.tails, letter)
    }

    /// The first such letter of those that are tried first.
    fn first_free(&self) -> Option<char>
        ensures some { IfSome result (IsFirst (IsFreeAt self.now.stage self.now.waited.now (map (λ t. t.now) self.now.tails.now))) }
        ensures none { IfNone result ((c : ℕ) → Contains first_letters c
            → is_free self.now.stage self.now.waited.now (map (λ t. t.now) self.now.tails.now) c ≡ false) }
    {
        for &code in FIRST_OTHERS.as_bytes() {
            let letter = char::from(code);
            if self.is_free(letter) {
                return Some(letter);
            }
        }
        None
    }

    /// The first such letter of all characters.
    fn any_free(&self) -> Option<char>
        ensures some { IfSome result (λ c. is_free self.now.stage self.now.waited.now (map (λ t. t.now) self.now.tails.now) c ≡ true) }
        ensures least { IfSome result (λ c. (d : ℕ) → d < c → IsScalar d
            → is_free self.now.stage self.now.waited.now (map (λ t. t.now) self.now.tails.now) d ≡ false) }
        ensures none { IfNone result ((c : ℕ) → IsScalar c → is_free self.now.stage self.now.waited.now (map (λ t. t.now) self.now.tails.now) c ≡ false) }
    {
        for code in 0..CODES {
            if let Some(letter) = char::from_u32(code) {
                if self.is_free(letter) {
                    return Some(letter);
                }
            }
        }
        None
    }

    /// The first such letter.
    fn free_letter(&self) -> Option<char>
        ensures some { IfSome result (IsFirst (IsFreeAt self.now.stage self.now.waited.now (map (λ t. t.now) self.now.tails.now))) }
        ensures none { IfNone result ((c : ℕ) → IsScalar c → is_free self.now.stage self.now.waited.now (map (λ t. t.now) self.now.tails.now) c ≡ false) }
    {
        match self.first_free() {
            Some(letter) => Some(letter),
            None => self.any_free(),
        }
    }

    /// Adds every letter that nothing waits for.
    fn add_others(&self, letters: &mut Vec<char>) -> Result<(), OutOfMemory>
        ensures kept { OnOk result ((c : ℕ) → Contains letters.old.items c → Contains letters.new.items c) }
        ensures others { OnOk result ((c : ℕ) → IsScalar c → is_other self.now.stage self.now.waited.now c ≡ true → Contains letters.new.items c) }
        ensures only { OnOk result ((c : ℕ) → Contains letters.new.items c
            → Contains letters.old.items c ⊎ IsOtherAt self.now.stage self.now.waited.now c) }
    {
        for code in 0..CODES {
            if let Some(letter) = char::from_u32(code) {
                if self.is_other(letter) {
                    letters.push(letter)?;
                }
            }
        }
        Ok(())
    }

    /// One letter that stands for all that nothing waits for. Where a named text goes on with each of them, they stand for themselves.
    fn add_unwaited(&self, letters: &mut Vec<char>) -> Result<(), OutOfMemory>
        ensures kept { OnOk result ((c : ℕ) → Contains letters.old.items c → Contains letters.new.items c) }
        ensures others { OnOk result ((c : ℕ) → IsScalar c → is_other self.now.stage self.now.waited.now c ≡ true
            → Contains letters.new.items c ⊎ HasFree self.now.stage self.now.waited.now (map (λ t. t.now) self.now.tails.now) letters.new.items) }
        ensures exact { OnOk result ((c : ℕ) → Contains letters.new.items c
            ↔ (Contains letters.old.items c ⊎ IsAdded self.now.stage self.now.waited.now (map (λ t. t.now) self.now.tails.now) c)) }
    {
        match self.free_letter() {
            Some(letter) => {
                letters.push(letter)?;
                Ok(())
            }
            None => self.add_others(letters),
        }
    }

    /// The letters that are tried, in order.
    pub fn letters(&self, alloc: Global) -> Result<Vec<char>, OutOfMemory>
        ensures stand { IfOk result (λ v. (c : ℕ) → IsScalar c → is_some (next_stage self.now.stage c) ≡ true
            → Stands self.now.stage self.now.waited.now (map (λ t. t.now) self.now.tails.now) v.items c) }
        ensures exact { IfOk result (λ v. (c : ℕ) → Contains v.items c
            ↔ (Contains self.now.waited.now c ⊎ IsAdded self.now.stage self.now.waited.now (map (λ t. t.now) self.now.tails.now) c)) }
        ensures rising { IfOk result (λ v. IsStrictlyIncreasing v.items) }
    {
        let mut letters = Vec::with_capacity(alloc, self.waited.len().saturating_add(1))?;
        letters.extend_from_slice(self.waited)?;
        self.add_unwaited(&mut letters)?;
        Ok(sorted_letters(letters))
    }
}

/// The letters in order, each once.
pub fn sorted_letters(letters: Vec<char>) -> Vec<char>
    ensures rising { IsStrictlyIncreasing result.items }
    ensures same { SameElements result.items letters.items }
{
    let mut letters = letters;
    letters.sort_unstable();
    letters.dedup();
    letters
}

/// Whether some named text goes on with the letter.
fn goes_on(tails: &[&[char]], letter: char) -> bool
    ensures { result ≡ goes_on (map (λ t. t.now) tails.now) letter }
{
    for tail in tails {
        if begins_with(tail, letter) {
            return true;
        }
    }
    false
}

fn begins_with(tail: &[char], letter: char) -> bool
    ensures { result ≡ begins_with letter tail.now }
{
    match tail {
        [first, ..] => *first == letter,
        [] => false,
    }
}

/// What is left of the named texts that go on with the letter.
pub fn tails_behind<'a>(
    alloc: Global,
    tails: &[&'a [char]],
    letter: char,
) -> Result<Vec<&'a [char]>, OutOfMemory>
    ensures { IfOk result (λ v. map (λ t. t.now) v.items ≡ tails_of letter (map (λ t. t.now) tails.now)) }
{
    let mut behind = Vec::with_capacity(alloc, tails.len())?;
    for &tail in tails {
        if begins_with(tail, letter) {
            behind.push(&tail[1..])?;
        }
    }
    Ok(behind)
}

/// Whether a named text ends here.
pub fn ends_here(tails: &[&[char]]) -> bool
    ensures { IsTrue result ↔ Contains (map (λ t. t.now) tails.now) [] }
{
    for tail in tails {
        if tail.is_empty() {
            return true;
        }
    }
    false
}
