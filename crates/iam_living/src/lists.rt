// Which statements live of the list that stands with a resource.
ghost use Rattle.std.specs.Prelude.{◌≡◌, ◌⊎◌, ◌<◌, ℕ, All, IfOk, IfSome, IsTrue, Some, length, map};
ghost use Rattle.std.specs.List.{slice_get};
ghost use Rattle.iam_context.specs.Context.{ContextValue};
ghost use Rattle.iam_match.specs.Request.{access_of};
ghost use Rattle.iam_decision.specs.Code.Scan.{placed_value};
ghost use Rattle.iam_layers.specs.Cell.{IsContextAt};
ghost use Rattle.iam_columns.specs.Slots.{Keeps};
ghost use Rattle.iam_index.specs.declared.lists.Listed.{Listed};
ghost use Rattle.iam_living.specs.Asker.{AreListWords, AsksForNone};
ghost use Rattle.iam_living.specs.Word.{AreBits};

use crate::word::with_bit;
use iam_columns::{keep, kept, slots_or_none};
use iam_index::{Index, ResourceLists};
use iam_layers::Standing;
use iam_match::{Access, rest_matches};
use iam_text::OutOfMemory;
use std::alloc::Global;

/// So many lists are told of at most: those of the first resources, since room for them is taken with each set of derived keys.
const MOST: usize = 64;

/// What is told so far of lists, by their numbers: which of their statements live, for whatever resource, as the bits of a number.
pub type ListWords = Vec<Option<u64>>;

/// Which statements of list n live in requests for this access, as the bits of a number: as it is told, or else tried, and then told
/// where they ask neither for the resource nor for a key that a resource gives. `None` where a word has no bits for them.
pub fn list_word<'a: 'c, 'c>(
    alloc: Global,
    index: &Index<'a>,
    lists: &ResourceLists<'a>,
    told: &mut ListWords,
    n: usize,
    access: Access<'_, 'c>,
) -> Result<Option<u64>, OutOfMemory>
    requires { n < length lists.now.lists.items }
    ensures told { (p r : ℕ) (derived : ContextValue) → IsContextAt index.now p r derived access.entry.context.now
        → AreListWords index.now p derived access.entry.requester.now lists.now.lists.items told.old.items
        → AreListWords index.now p derived access.entry.requester.now lists.now.lists.items told.new.items }
    ensures word { (p r : ℕ) (derived : ContextValue) (listed : Listed) → IsContextAt index.now p r derived access.entry.context.now
        → AreListWords index.now p derived access.entry.requester.now lists.now.lists.items told.old.items
        → slice_get lists.now.lists.items n ≡ Some listed
        → IfOk result (λ found. IfSome found (AreBits (access_of access.entry) (map placed_value listed.statements.items))) }
{
    if let Some(word) = kept(told.as_slice(), n as u64) {
        return Ok(Some(word));
    }
    let statements = lists.statements(n);
    let word = word_of(alloc, statements, access)?;
    if let Some(word) = free_word(index, statements, word) {
        tell(alloc, told, lists.lists.len(), n, word);
    }
    Ok(word)
}

/// The word of statements, where it is that of requests for whatever resource.
fn free_word(index: &Index<'_>, statements: &[Standing<'_>], word: Option<u64>) -> Option<u64>
    ensures { IfSome result (λ told. (word ≡ Some told) × All (λ s. AsksForNone index.now (placed_value s)) statements.now) }
{
    let word = word?;
    if ask_for_none(index, statements) {
        Some(word)
    } else {
        None
    }
}

/// Tells the word of list n, one of so many, where there is room for it.
fn tell(alloc: Global, told: &mut ListWords, count: usize, n: usize, word: u64)
    ensures { (i kept : ℕ) → Keeps told.new.items i kept → ((i ≡ n) × (kept ≡ word)) ⊎ Keeps told.old.items i kept }
{
    if told.is_empty() {
        *told = slots_or_none(alloc, count.min(MOST) as u64);
    }
    keep(told, n as u64, word);
}

/// `true` only where none of the statements asks for the resource, or for a key that a resource gives.
fn ask_for_none(index: &Index<'_>, statements: &[Standing<'_>]) -> bool
    ensures { IsTrue result → All (λ s. AsksForNone index.now (placed_value s)) statements.now }
{
    for &standing in statements {
        if !asks_for_none(index, standing) {
            return false;
        }
    }
    true
}

/// The same of one statement.
fn asks_for_none(index: &Index<'_>, standing: Standing<'_>) -> bool
    ensures { IsTrue result → AsksForNone index.now (placed_value standing.entry) }
{
    standing.statement.resource().is_none() && index.is_free(standing.statement)
}

/// Which of the statements live in requests for this access, as the bits of a number; `None` where a word has no bits for them.
fn word_of<'a: 'c, 'c>(
    alloc: Global,
    statements: &[Standing<'a>],
    access: Access<'_, 'c>,
) -> Result<Option<u64>, OutOfMemory>
    ensures { IfOk result (λ found. IfSome found (AreBits (access_of access.entry) (map placed_value statements.now))) }
{
    let mut word = 0;
    for i in (0..statements.len()).rev() {
        match with_bit(word, rest_matches(alloc, statements[i].statement, access)?) {
            Some(longer) => word = longer,
            None => return Ok(None),
        }
    }
    Ok(Some(word))
}
