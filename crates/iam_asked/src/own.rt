// The keys that requests give themselves: how large they are, and which are the same.
ghost use Rattle.std.specs.Prelude.{◌≡◌, ◌+◌, ◌++◌, ◌<◌, MatchOption, fold};
ghost use Rattle.std.specs.Bool.{Decides};
ghost use Rattle.std.specs.Cmp.{partial_equiv_from_equiv};
ghost use Rattle.std.specs.Cmp.Lexicographic.{bytes_decides, pointwise};
ghost use Rattle.std.specs.Hash as fed;
ghost use Rattle.std.specs.Hash.{and-Alike, items_Alike, on_Alike, same_Alike};
ghost use Rattle.std.specs.List.{sum_by};
ghost use Rattle.std.proofs.lemmas.Cmp.{and_equiv, lists_equiv, nat_list_eq_equiv, on_equiv};
ghost use Rattle.iam_context.specs.Context.{ContextValue};
ghost use Rattle.iam_asked.specs.Code.Own.{fed_entry, same_entry};
ghost use Rattle.iam_asked.specs.Size.{own_size, text_size};

use iam_context::{KeyName, Part, Values};
use iam_text::Text;
use std::hash::{Hash, Hasher};
use std::marker::Model;

/// What a key or a value takes beside its bytes.
const TEXT_SIZE: u64 = 64;

/// The keys that a request gives itself. Two are equal where they have the same keys with the same values, in the same order.
#[derive(Drop)]
pub struct Own(Part);

impl Model for Own {
    ghost Value = { ContextValue };

    ghost view = { λ own. own.0.items };
}

impl Own {
    /// These keys.
    pub fn new(part: Part) -> Own
        ensures { result ≡ part.items }
    {
        Own(part)
    }

    /// The keys.
    pub fn part(&self) -> &Part
        ensures { result.now.items ≡ self.now }
    {
        &self.0
    }
}

/// How much room is left behind a text; `None` where there is not so much.
fn behind_text(text: &str, room: u64) -> Option<u64>
    ensures { MatchOption result (room < text_size text.now) (λ left. left + text_size text.now ≡ room) }
{
    room.checked_sub(TEXT_SIZE)?.checked_sub(text.len() as u64)
}

/// How much room is left behind some texts.
fn behind_texts(texts: &[Text], room: u64) -> Option<u64>
    ensures { MatchOption result (room < sum_by text_size texts.now) (λ left. left + sum_by text_size texts.now ≡ room) }
{
    let mut left = room;
    for text in texts {
        left = behind_text(text.as_str(), left)?;
    }
    Some(left)
}

/// How much of some room is left behind the keys of a request; `None` where they are larger.
pub fn behind_own(own: &Own, room: u64) -> Option<u64>
    ensures { MatchOption result (room < own_size own.now) (λ left. left + own_size own.now ≡ room) }
{
    let mut left = room;
    for (key, values) in &own.0 {
        left = behind_texts(values.as_slice(), behind_text(key.as_str(), left)?)?;
    }
    Some(left)
}

/// Whether the texts are the same, in the same order.
fn are_same_texts(texts: &[Text], others: &[Text]) -> bool
    ensures { Decides result (texts.now ≡ others.now) }
{
    if texts.len() != others.len() {
        return false;
    }
    for (i, text) in texts.iter().enumerate() {
        if text.as_str() != others[i].as_str() {
            return false;
        }
    }
    true
}

/// Whether both have the same key with the same values.
fn is_same_entry(entry: &(KeyName, Values), other: &(KeyName, Values)) -> bool
    ensures { Decides result (entry.now ≡ other.now) }
{
    entry.0.as_str() == other.0.as_str() && are_same_texts(entry.1.as_slice(), other.1.as_slice())
}

/// Whether both have the same keys with the same values, in the same order.
fn are_same_entries(entries: &[(KeyName, Values)], others: &[(KeyName, Values)]) -> bool
    ensures { Decides result (entries.now ≡ others.now) }
{
    if entries.len() != others.len() {
        return false;
    }
    for (i, entry) in entries.iter().enumerate() {
        if !is_same_entry(entry, &others[i]) {
            return false;
        }
    }
    true
}

impl PartialEq for Own {
    ghost eq = { pointwise same_entry };

    ghost laws = { partial_equiv_from_equiv (lists_equiv (and_equiv (on_equiv (λ it. it.0) nat_list_eq_equiv) (on_equiv (λ it. it.1) (lists_equiv nat_list_eq_equiv)))) };

    fn eq(&self, other: &Own) -> bool {
        are_same_entries(self.0.as_slice(), other.0.as_slice())
    }
}

impl Eq for Own {
    ghost laws = { lists_equiv (and_equiv (on_equiv (λ it. it.0) nat_list_eq_equiv) (on_equiv (λ it. it.1) (lists_equiv nat_list_eq_equiv))) };
}

/// Feeds a hasher with a key and its values.
fn hash_entry<H: Hasher>(entry: &(KeyName, Values), state: &mut H)
    ensures { state.new ≡ fold H.write state.old (fed_entry entry.now) }
{
    entry.0.as_str().hash(state);
    let texts = entry.1.as_slice();
    state.write_usize(texts.len());
    for text in texts {
        text.as_str().hash(state);
    }
}

impl Hash for Own {
    ghost hash_input = { fed.slice fed_entry };

    ghost respects_eq = { (items_Alike (and-Alike (on_Alike (λ it. it.0) (same_Alike fed.str bytes_decides)) (on_Alike (λ it. it.1) (items_Alike (same_Alike fed.str bytes_decides))))).fed };

    fn hash<H: Hasher>(&self, state: &mut H) {
        state.write_usize(self.0.len());
        for entry in &self.0 {
            hash_entry(entry, state);
        }
    }
}
