// Tables of slots, each of which holds what was kept there last.
ghost use Rattle.std.specs.Prelude.{◌≡◌, ◌<◌, ◌≤◌, ◌≢◌, ℕ, IfOk, IfSome, Some, length};
ghost use Rattle.std.specs.List.{slice_get};
ghost use Rattle.iam_columns.specs.Slots.{AreEmpty, GainsOnly, Keeps};

use iam_text::OutOfMemory;
use std::alloc::Global;

/// Numbers below this, with another, have slots of their own, where there are so many slots for each of the others.
pub const WIDTH: u64 = 1021;

/// A slot for these two numbers among so many, a power of two; several may have the same.
pub fn slot_of(one: u64, other: u64, slots: usize) -> u64
    ensures { 0 < slots → result < slots }
{
    slot_at(one, WIDTH, other, slots)
}

/// A slot for column `other` of row `one` in a table so many columns wide, which goes round where there are fewer slots than
/// places: rows that follow one another lie side by side.
pub fn slot_at(one: u64, width: u64, other: u64, slots: usize) -> u64
    ensures { 0 < slots → result < slots }
{
    let mask = (slots as u64).wrapping_sub(1);
    one.wrapping_mul(width).wrapping_add(other) & mask
}

/// More slots than a world has cells are never wanted.
const MOST_SLOTS: u64 = 16_777_216;

/// So many slots or more, a power of two, which keep nothing; where more than 16,777,216 are asked for, that many.
pub fn empty_slots<T: Copy>(alloc: Global, count: u64) -> Result<Vec<Option<T>>, OutOfMemory>
    ensures empty { IfOk result (λ slots. AreEmpty slots.items) }
    ensures many { IfOk result (λ slots. count ≤ 16777216 → count ≤ length slots.items) }
{
    let count = count.min(MOST_SLOTS).next_power_of_two();
    vec![in alloc; None; count as usize]
}

/// The same, for what may be kept or not: where memory is refused there are no slots.
pub fn slots_or_none<T: Copy>(alloc: Global, count: u64) -> Vec<Option<T>>
    ensures { AreEmpty result.items }
{
    match empty_slots(alloc, count) {
        Ok(slots) => slots,
        Err(_) => Vec::new(alloc),
    }
}

/// What a slot keeps.
pub fn kept<T: Copy>(slots: &[Option<T>], slot: u64) -> Option<T>
    ensures found { IfSome result (Keeps slots.now slot) }
    ensures all { (it : T) → Keeps slots.now slot it → result ≡ Some it }
{
    match slots.get(slot as usize) {
        Some(kept) => *kept,
        None => None,
    }
}

/// Puts this into a slot, if there is such a slot.
pub fn keep<T: Copy>(slots: &mut Vec<Option<T>>, slot: u64, kept: T)
    ensures gains { GainsOnly slots.old.items slots.new.items kept }
    ensures put { slot < length slots.old.items → Keeps slots.new.items slot kept }
    ensures others { (i : ℕ) → i ≢ slot → slice_get slots.new.items i ≡ slice_get slots.old.items i }
    ensures slots { length slots.new.items ≡ length slots.old.items }
{
    let slot = slot as usize;
    if slot < slots.len() {
        slots[slot] = Some(kept);
    }
}

/// Empties all slots.
pub fn empty<T: Copy>(slots: &mut [Option<T>])
    ensures empty { AreEmpty slots.new }
    ensures slots { length slots.new ≡ length slots.old }
{
    slots.fill(None);
}
