// In which case the characters of a text are shown that was found without regard to case.
ghost use Rattle.std.specs.Prelude.{◌≡◌, ℕ, List, Contains, IfOk, map};
ghost use Rattle.iam_glob.specs.Glob.{folded};
ghost use Rattle.iam_kinds.specs.Code.{AreIn, folded_pattern};
ghost use Rattle.iam_kinds.specs.Places.{IsRising};
ghost use Rattle.iam_kinds.specs.Spelled.{IsCasedAt};
ghost use Rattle.iam_kinds.specs.Walk.{IsCasedFor, IsReady};

use crate::OutOfMemory;
use crate::asked::Asked;
use crate::table::{Place, Table};
use std::alloc::Global;

/// The folded texts with each character in the case of the first pattern that waits for it. `own` has the patterns of which those
/// that are asked by are folded.
pub fn cased_texts(
    alloc: Global,
    asked: &Asked<'_>,
    own: &Table,
    texts: &[Vec<char>],
) -> Result<Vec<Vec<char>>, OutOfMemory>
    requires ready { IsReady asked.now }
    requires own { asked.now.table.now.patterns.items ≡ map folded_pattern own.now.patterns.items }
    requires folds { (text : List ℕ) → Contains (map (λ t. t.items) texts.now) text → map folded text ≡ text }
    ensures same { IfOk result (λ v. map (λ t. map folded t.items) v.items ≡ map (λ t. t.items) texts.now) }
    ensures cased { IfOk result (λ v. (text : List ℕ) → Contains (map (λ t. t.items) v.items) text
        → IsCasedFor asked.now own.now.patterns.items text) }
{
    let mut cased = Vec::with_capacity(alloc, texts.len())?;
    for text in texts {
        cased.push(cased_text(alloc, asked, own, text)?)?;
    }
    Ok(cased)
}

/// One of them.
fn cased_text(
    alloc: Global,
    asked: &Asked<'_>,
    own: &Table,
    text: &[char],
) -> Result<Vec<char>, OutOfMemory>
    requires ready { IsReady asked.now }
    requires own { asked.now.table.now.patterns.items ≡ map folded_pattern own.now.patterns.items }
    requires folds { map folded text.now ≡ text.now }
    ensures same { IfOk result (λ v. map folded v.items ≡ text.now) }
    ensures cased { IfOk result (λ v. IsCasedFor asked.now own.now.patterns.items v.items) }
{
    let mut cased = Vec::with_capacity(alloc, text.len())?;
    let mut places = asked.table.starts(alloc, asked.count)?;
    for &letter in text {
        cased.push(cased_letter(asked.table, own, &places, letter))?;
        places = asked.table.step(alloc, &places, letter)?;
    }
    Ok(cased)
}

/// The letter as the pattern has it at the first of the places that waits for it.
fn cased_letter(table: &Table, own: &Table, places: &[Place], letter: char) -> char
    requires own { table.now.patterns.items ≡ map folded_pattern own.now.patterns.items }
    requires places_in { AreIn table.now.patterns.items places.now }
    requires rising { IsRising places.now }
    requires folds { folded letter ≡ letter }
    ensures same { folded result ≡ letter }
    ensures cased { IsCasedAt (Contains places.now) table.now.patterns.items own.now.patterns.items result }
{
    let Some(place) = table.first_waiting(places, letter) else {
        return letter;
    };
    match own.waited_at(place) {
        Some(own) => own,
        None => letter,
    }
}
