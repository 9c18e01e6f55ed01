// Kinds of texts that were found, for questions that come again.
ghost use Rattle.std.specs.Prelude.{◌≡◌, ◌<◌, ◌+◌, ◌^◌, IfOk, IfSome, IsTrue, None, length, map, replicate};
ghost use Rattle.std.specs.String.{string_bytes};
ghost use Rattle.std.specs.Str.{chars};
ghost use Rattle.iam_kinds.specs.Answers.{IsAnswer};
ghost use Rattle.iam_kinds.specs.Kept.{AnswersAll, AreFound, IsAskedOf, IsFound, names_of, question_with};
ghost use Rattle.iam_kinds.specs.Kinds.{Question};
ghost use Rattle.iam_kinds.specs.declared.walks.Found.{Found};

use crate::OutOfMemory;
use crate::asked::Asked;
use crate::grammar::Grammar;
use crate::kinds::{Kinds, answer, characters, table_of};
use crate::table::{Pattern, Table};
use iam_glob::{Sign, Signs};
use std::alloc::Global;

/// How many answers are kept.
const SLOTS: usize = 1024;

/// The most signs of patterns, and the most texts, of one that is kept.
const MOST_SIGNS: usize = 1024;

const MOST_TEXTS: usize = 64;

/// The patterns of a question, how many of them have to match, how many groups are told apart, and the answer.
#[derive(Drop)]
pub struct Found {
    pub table: Table,
    pub within: usize,
    pub groups: usize,
    pub kinds: Kinds,
}

/// Finds kinds of texts of any form beside some that are named, and keeps what was found last.
#[derive(Drop)]
pub struct Walks {
    named: Vec<Vec<char>>,
    slots: Vec<Option<Found>>,
}

impl Found {
    /// Whether the answer is to a question of these patterns.
    fn is_of(&self, table: &Table, within: usize, groups: usize) -> bool
        ensures { IsTrue result → (self.now.table.patterns.items ≡ table.now.patterns.items)
            × (self.now.within ≡ within) × (self.now.groups ≡ groups) }
    {
        self.within == within && self.groups == groups && self.table.equals(table)
    }
}

/// The kinds again.
fn copied(alloc: Global, kinds: &Kinds) -> Result<Kinds, OutOfMemory>
    ensures { IfOk result (λ copy. (question : Question) → IsAnswer question kinds.now → IsAnswer question copy) }
{
    match kinds {
        Kinds::Shown(texts) => Ok(Kinds::Shown(copied_texts(alloc, texts)?)),
        Kinds::NotShown => Ok(Kinds::NotShown),
    }
}

/// The texts again.
fn copied_texts(alloc: Global, texts: &[String]) -> Result<Vec<String>, OutOfMemory>
    ensures { IfOk result (λ copy. map string_bytes copy.items ≡ map string_bytes texts.now) }
{
    let mut copy = Vec::with_capacity(alloc, texts.len())?;
    for text in texts {
        copy.push(String::from_str(alloc, text.as_str())?)?;
    }
    Ok(copy)
}

/// How many signs the patterns have.
fn signs_in(table: &Table) -> usize {
    let mut count: usize = 0;
    for pattern in &table.patterns {
        count = count.saturating_add(pattern.signs.as_slice().len());
    }
    count
}

/// Whether the answer to a question of these patterns is small enough to be kept.
fn is_small(table: &Table, kinds: &Kinds) -> bool {
    let are_few = match kinds {
        Kinds::Shown(texts) => texts.len() <= MOST_TEXTS,
        Kinds::NotShown => true,
    };
    are_few && signs_in(table) <= MOST_SIGNS
}

/// The slot of a question of these patterns; several may have the same.
fn slot_of(table: &Table) -> usize
    ensures { result < 1024 }
{
    let mut print: u64 = 0;
    for pattern in &table.patterns {
        print = print_behind(print, pattern);
    }
    ((print >> 32) % 1024) as usize
}

/// A number for the patterns so far and one more, the next.
fn print_behind(print: u64, pattern: &Pattern) -> u64 {
    let mut print = next_print(print, pattern.group as u64);
    for &sign in pattern.signs.as_slice() {
        print = next_print(print, number_of(sign));
    }
    print
}

fn next_print(print: u64, number: u64) -> u64 {
    print
        .wrapping_add(number)
        .wrapping_mul(0x9e37_79b9_7f4a_7c15)
}

fn number_of(sign: Sign) -> u64 {
    match sign {
        Sign::Any => 1,
        Sign::One => 2,
        Sign::Given(character) => u64::from(u32::from(character)) + 3,
    }
}

/// Slots that keep nothing.
fn no_answers(alloc: Global) -> Result<Vec<Option<Found>>, OutOfMemory>
    ensures { IfOk result (λ slots. slots.items ≡ replicate 1024 None) }
{
    let mut slots = Vec::with_capacity(alloc, SLOTS)?;
    for _slot in 0..SLOTS {
        slots.push(None)?;
    }
    Ok(slots)
}

impl Walks {
    /// Keeps nothing yet; no kind is shown by one of these texts.
    pub fn new(alloc: Global, named: &[&str]) -> Result<Walks, OutOfMemory>
        ensures found { IfOk result AreFound }
        ensures named { IfOk result (λ walks. names_of walks ≡ map (λ text. chars text.now) named.now) }
    {
        Ok(Walks {
            named: characters(alloc, named, false)?,
            slots: no_answers(alloc)?,
        })
    }

    /// One text of each kind, as `find_kinds` of texts of any form has them.
    pub fn find(
        &mut self,
        alloc: Global,
        within: &[Signs<'_>],
        groups: &[Vec<Signs<'_>>],
    ) -> Result<Kinds, OutOfMemory>
        requires { AreFound self.old }
        ensures answer { IfOk result (IsAnswer (question_with within.now groups.now (names_of self.old))) }
        ensures found { AreFound self.new }
        ensures named { names_of self.new ≡ names_of self.old }
    {
        let table = table_of(alloc, within, groups, false)?;
        let slot = slot_of(&table);
        if let Some(kinds) = self.kept(alloc, slot, &table, within.len(), groups.len())? {
            return Ok(kinds);
        }
        let kinds = self.sought(alloc, &table, within.len(), groups.len())?;
        if is_small(&table, &kinds) {
            self.keep(
                slot,
                Found {
                    table,
                    within: within.len(),
                    groups: groups.len(),
                    kinds: copied(alloc, &kinds)?,
                },
            );
        }
        Ok(kinds)
    }

    /// The answer that the slot keeps, if it is to a question of these patterns.
    fn kept(
        &self,
        alloc: Global,
        slot: usize,
        table: &Table,
        within: usize,
        groups: usize,
    ) -> Result<Option<Kinds>, OutOfMemory>
        requires found { AreFound self.now }
        requires slot { slot < 1024 }
        ensures { IfOk result (λ found. IfSome found (AnswersAll (names_of self.now) table.now.patterns.items within groups)) }
    {
        match &self.slots[slot] {
            Some(found) if found.is_of(table, within, groups) => {
                Ok(Some(copied(alloc, &found.kinds)?))
            }
            _ => Ok(None),
        }
    }

    /// The answer to questions of these patterns, of which there is one.
    fn sought(
        &self,
        alloc: Global,
        table: &Table,
        within: usize,
        groups: usize,
    ) -> Result<Kinds, OutOfMemory>
        requires few { within + groups < 2 ^ 64 }
        requires asked { (question : Question) × IsAskedOf question (names_of self.now) table.now.patterns.items within groups }
        ensures { IfOk result (AnswersAll (names_of self.now) table.now.patterns.items within groups) }
    {
        let asked = Asked::of(table, within, groups, Grammar::AnyText, &self.named);
        answer(alloc, &asked)
    }

    /// Keeps what was found in place of what the slot has.
    fn keep(&mut self, slot: usize, found: Found)
        requires found { AreFound self.old }
        requires right { IsFound (names_of self.old) found }
        requires slot { slot < 1024 }
        ensures found { AreFound self.new }
        ensures named { names_of self.new ≡ names_of self.old }
    {
        self.slots[slot] = Some(found);
    }
}
