// Decisions on requests of classes, up to 64 actions at once.

use crate::lanes::Decided;
use crate::memo::Memo;
use crate::span::TOGETHER;
use iam_columns::{empty, keep, kept, slot_of, slots_or_none};
use iam_layers::World;
use std::alloc::Global;

/// So many batches are kept at most.
const MOST: u64 = 8_192;

/// What is decided on the requests of a class for the actions from 64 times this number on, 64 at most.
#[derive(Clone, Copy)]
pub struct Batch {
    pub class: usize,
    pub number: u64,
    pub decided: Decided,
}

/// The batches that were decided on last.
#[derive(Drop)]
pub struct Batches {
    pub slots: Vec<Option<Batch>>,
}

impl Batches {
    ghost use Rattle.std.specs.Prelude.{◌<◌, ◌*◌, IfSome, List, length};
    ghost use Rattle.iam_columns.specs.Slots.{AreEmpty};
    ghost use Rattle.iam_world.specs.World.{WorldValue};
    ghost use Rattle.iam_classes.specs.Batches.{AreBatches, IsBatch};
    ghost use Rattle.iam_classes.specs.declared.memo.Class.{Class};

    /// None yet.
    pub fn new(alloc: Global) -> Batches
        ensures { AreEmpty result.slots.items }
    {
        Batches {
            slots: Vec::new(alloc),
        }
    }

    /// Lets go all of them.
    pub fn forget(&mut self)
        ensures { AreEmpty self.new.slots.items }
    {
        empty(&mut self.slots);
    }

    /// What is decided on a batch of a class, where the rows of its statements tell.
    pub fn decided(
        &mut self,
        alloc: Global,
        memo: &Memo<'_>,
        class: usize,
        number: u64,
    ) -> Option<Decided>
        requires actions { 64 * number < length memo.now.world.actions }
        requires class { class < length memo.now.classes }
        requires right { AreBatches memo.now.world memo.now.classes self.old }
        ensures decided { IfSome result (IsBatch memo.now.world memo.now.classes class number) }
        ensures right { AreBatches memo.now.world memo.now.classes self.new }
    {
        match self.kept(class, number) {
            Some(decided) => Some(decided),
            None => self.find(alloc, memo, class, number),
        }
    }

    /// What is decided on a batch, where it is known.
    #[inline(always)]
    fn kept(&self, class: usize, number: u64) -> Option<Decided>
        ensures { (world : WorldValue) (classes : List Class) → AreBatches world classes self.now
            → IfSome result (IsBatch world classes class number) }
    {
        let slot = slot_of(number, class as u64, self.slots.len());
        match kept(self.slots.as_slice(), slot) {
            Some(it) if it.class == class && it.number == number => Some(it.decided),
            _ => None,
        }
    }

    /// The same where it is not known.
    #[inline(never)]
    fn find(&mut self, alloc: Global, memo: &Memo<'_>, class: usize, number: u64) -> Option<Decided>
        requires actions { 64 * number < length memo.now.world.actions }
        requires class { class < length memo.now.classes }
        requires right { AreBatches memo.now.world memo.now.classes self.old }
        ensures decided { IfSome result (IsBatch memo.now.world memo.now.classes class number) }
        ensures right { AreBatches memo.now.world memo.now.classes self.new }
    {
        let decided = memo.decided(class, number)?;
        self.make_room(alloc, memo.world());
        let slot = slot_of(number, class as u64, self.slots.len());
        let batch = Batch {
            class,
            number,
            decided,
        };
        keep(&mut self.slots, slot, batch);
        Some(decided)
    }

    /// Takes room for the batches of a world, where there is none yet and there is memory.
    fn make_room(&mut self, alloc: Global, world: &World)
        ensures { (w : WorldValue) (classes : List Class) → AreBatches w classes self.old → AreBatches w classes self.new }
    {
        if self.slots.is_empty() {
            let pairs = world.principals().saturating_mul(world.resources());
            let batches = pairs.saturating_mul(world.actions().div_ceil(TOGETHER));
            self.slots = slots_or_none(alloc, batches.min(MOST));
        }
    }
}
