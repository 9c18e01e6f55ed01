// Where an item may be found again: tables of numbers by hashes, and by hints of callers. Each is a guess, and nothing is
// claimed of it.
use std::alloc::Global;
use std::mem;

/// So many slots are looked at for one item.
pub const STEPS: u64 = 16;

const LEAST_SLOTS: usize = 16;

/// A number mixed into a hash.
pub fn mix(hash: u64, value: u64) -> u64 {
    (hash.rotate_left(5) ^ value).wrapping_mul(0x517c_c1b7_2722_0a95)
}

/// A hash, and a number and 1; 0 stands where there is no number.
#[derive(Clone, Copy, Debug)]
struct Slot {
    hash: u64,
    number: u32,
}

/// Numbers by hashes.
#[derive(Debug, Drop)]
pub struct Guesses {
    slots: Vec<Slot>,
    // How many numbers were put.
    count: usize,
}

impl Guesses {
    pub fn new(alloc: Global) -> Guesses {
        Guesses {
            slots: Vec::new(alloc),
            count: 0,
        }
    }

    /// The slot to look at in this step. Their number is a power of two.
    fn slot(&self, hash: u64, step: u64) -> usize {
        let mask = (self.slots.len() as u64).wrapping_sub(1);
        ((hash >> 20).wrapping_add(step) & mask) as usize
    }

    /// The number to look at in this step, where there is one.
    pub fn at(&self, hash: u64, step: u64) -> Option<u32> {
        let slot = *self.slots.get(self.slot(hash, step))?;
        slot.number.checked_sub(1)
    }

    /// Keeps the number of an item that was put behind others, and has room for as many again. Where there is no memory for
    /// that, numbers that were kept may be forgotten.
    pub fn keep(&mut self, alloc: Global, hash: u64, number: u32) {
        self.count = self.count.saturating_add(1);
        if self.count > self.slots.len() / 2 {
            self.widen(alloc);
        }
        self.set(hash, number.saturating_add(1));
    }

    /// Has twice as many slots, where there is memory for them.
    fn widen(&mut self, alloc: Global) {
        let count = self.slots.len().saturating_mul(2).max(LEAST_SLOTS);
        let mut slots = Vec::new(alloc);
        if slots.resize(count, Slot { hash: 0, number: 0 }).is_err() {
            return;
        }
        let old = mem::replace(&mut self.slots, slots);
        for slot in old.as_slice() {
            if slot.number > 0 {
                self.set(slot.hash, slot.number);
            }
        }
    }

    /// Keeps a number in the first free slot of the steps, or else in the first.
    fn set(&mut self, hash: u64, number: u32) {
        let mut slot = self.slot(hash, 0);
        for step in 0..STEPS {
            if self.at(hash, step).is_none() {
                slot = self.slot(hash, step);
                break;
            }
        }
        if let Some(place) = self.slots.get_mut(slot) {
            *place = Slot { hash, number };
        }
    }
}

/// So many hints are kept apart.
const HINTS: usize = 1024;

/// The numbers that hints led to last, 0 where none did, and else the number and 1.
#[derive(Debug, Drop)]
pub struct Hints {
    slots: Vec<u32>,
}

impl Hints {
    /// No number yet. Where there is no memory none is ever kept.
    pub fn new(alloc: Global) -> Hints {
        let slots = match vec![in alloc; 0u32; HINTS] {
            Ok(slots) => slots,
            Err(_) => Vec::new(alloc),
        };
        Hints { slots }
    }

    /// The number that a hint led to last, or another with which it shares its slot.
    #[inline]
    pub fn at(&self, hint: usize) -> Option<u32> {
        let slot = *self.slots.get(hint % HINTS)?;
        slot.checked_sub(1)
    }

    #[inline]
    pub fn set(&mut self, hint: usize, number: u32) {
        if let Some(place) = self.slots.get_mut(hint % HINTS) {
            *place = number.saturating_add(1);
        }
    }
}
