// Actions by their service prefixes.
ghost use Rattle.std.specs.Prelude.{[], ◌∷◌, ◌≡◌, ◌++◌, ℕ, IfOk, IfSome, List, OnOk, Option, Some, length, option_map};
ghost use Rattle.iam_services.specs.Services.{AreServices, Puts, TriesMatched, numbers_of, print_more, service, slot_of};

use crate::tried::Tried;
use iam_glob::{Glob, OutOfMemory, Sign};
use std::alloc::Global;

/// How many slots there are.
const SLOTS: u64 = 256;

/// Actions by their service prefixes: what stands before the first colon, without regard to the case of ASCII letters. Those of a
/// prefix have one slot, where those of others may stand too. Where there are no slots, a pattern is tried on all actions.
#[derive(Drop)]
pub struct Services {
    /// The numbers of the actions in each slot.
    pub slots: Vec<Vec<u64>>,
}

impl Services {
    /// Without slots. It takes no memory.
    pub fn none(alloc: Global) -> Services
        ensures { (actions : List (List ℕ)) → AreServices actions result }
    {
        Services {
            slots: Vec::new(alloc),
        }
    }

    /// Of no action yet.
    pub fn new(alloc: Global) -> Result<Services, OutOfMemory>
        ensures { IfOk result (AreServices []) }
    {
        let mut slots = Vec::with_capacity(alloc, SLOTS as usize)?;
        for _ in 0..SLOTS {
            slots.push(Vec::new(alloc))?;
        }
        Ok(Services { slots })
    }

    /// Adds the action that has this number. One without a colon has no service.
    pub fn add(&mut self, alloc: Global, action: &str, number: u64) -> Result<(), OutOfMemory>
        ensures { OnOk result ((actions : List (List ℕ)) → number ≡ length actions → AreServices actions self.old
            → AreServices (actions ++ action.now ∷ []) self.new) }
    {
        let text = Glob::plain(alloc, action)?;
        if let Some(slot) = slot_in(&text) {
            put(&mut self.slots, slot, number)?;
        }
        Ok(())
    }

    /// On which of the actions, which are so many, a pattern is tried: where its characters up to its first colon are all given,
    /// it can match those of its prefix alone.
    pub fn tried(&self, pattern: &Glob, count: u64) -> Tried<'_>
        ensures { (actions : List (List ℕ)) → count ≡ length actions → AreServices actions self.entry.now
            → TriesMatched actions pattern.now (numbers_of result) }
    {
        match self.sought(pattern) {
            Some(numbers) => Tried::These(numbers),
            None => Tried::All(count),
        }
    }

    /// The numbers of the actions in the slot of the pattern, where both have one.
    fn sought(&self, pattern: &Glob) -> Option<&[u64]>
        ensures { (actions : List (List ℕ)) → AreServices actions self.entry.now
            → IfSome result (λ numbers. TriesMatched actions pattern.now numbers.now) }
    {
        if self.slots.is_empty() {
            return None;
        }
        let slot = slot_in(pattern)?;
        Some(self.slots.get(slot)?.as_slice())
    }
}

/// Puts the number into the slot, where there is such a slot.
fn put(slots: &mut Vec<Vec<u64>>, slot: usize, number: u64) -> Result<(), OutOfMemory>
    ensures { OnOk result (Puts slots.old.items slots.new.items slot number) }
{
    if slot < slots.len() {
        slots[slot].push(number)?;
    }
    Ok(())
}

/// The slot of the service prefix of a pattern; `None` where the characters up to a colon are not all given.
fn slot_in(pattern: &Glob) -> Option<usize>
    ensures { result ≡ option_map slot_of (service pattern.now) }
{
    let signs = pattern.signs();
    let mut print = 0u64;
    for i in 0..signs.len() {
        let Sign::Given(given) = signs.at(i) else {
            return None;
        };
        let character = given.to_ascii_lowercase();
        if character == ':' {
            return Some((print % SLOTS) as usize);
        }
        print = print_more(print, character);
    }
    None
}

/// The number that one more character makes of a number.
#[inline(always)]
fn print_more(print: u64, character: char) -> u64
    ensures { result ≡ print_more print character }
{
    print.wrapping_mul(31).wrapping_add(u64::from(character))
}
