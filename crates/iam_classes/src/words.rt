// The classes of the principal that asked last, by which statements live in its requests, and for alike resources.
ghost use Rattle.std.specs.Prelude.{◌≡◌, ◌<◌, IfSome, IsTrue, Some, ℕ, IfOk, List, None, false, length, true};

use crate::held::Held;
use crate::memo::{Found, Memo};
use crate::source::{Source, Told};
use iam_columns::{empty, empty_slots, keep, kept, slot_of};
use iam_index::Index;
use iam_layers::{Frame, Shared, World};
use iam_living::{Asking, Bits};
use iam_text::OutOfMemory;
use std::alloc::Global;

/// So many words are kept at most, and one for each resource.
const MOST: u64 = 1024;

/// So many numbers of alike resources have a class at most.
const MOST_ALIKES: u64 = 4096;

/// A class, and the bits by which its statements live.
#[derive(Clone, Copy)]
pub struct Word {
    pub bits: Bits,
    pub class: usize,
}

/// The classes of one principal's requests by the bits that tell which statements live in these. Where none of those lives that stand
/// with their resource, they serve for all such resources, and are found by the numbers of resources that are alike too; or else for
/// the resources that have the same list.
#[derive(Drop)]
pub struct Words<'a> {
    pub asker: Option<Asking<'a>>,
    pub slots: Vec<Option<Word>>,
    pub alikes: Vec<Option<usize>>,
}

impl<'a> Words<'a> {
    ghost use Rattle.iam_layers.specs.Cell.{IsSharedAt};
    ghost use Rattle.iam_world.specs.World.{WorldValue};
    ghost use Rattle.iam_columns.specs.Slots.{AreEmpty, GainsOnly, Keeps};
    ghost use Rattle.iam_classes.specs.Memo.{HasClass, HasMore, HasShared, IsSameMemo};
    ghost use Rattle.iam_classes.specs.Told.{IsTold};
    ghost use Rattle.iam_classes.specs.Words.{AreWords, GainsAt, IsFoundAmong, LiveByBits};
    ghost use Rattle.iam_living.specs.Asker.{AreBitsAt, IsAsker};
    ghost use Rattle.iam_living.specs.Listing.{AreAlikes, statements_of};
    ghost use Rattle.iam_living.specs.Living.{NoneConcerns};
    ghost use Rattle.iam_living.specs.declared.asker.Asker.{Asker};
    ghost use Rattle.iam_classes.specs.declared.memo.Class.{Class};
    ghost use Rattle.iam_classes.specs.declared.words.Word.{Word};

    /// None yet of a world.
    pub fn new(alloc: Global, world: &World) -> Result<Words<'a>, OutOfMemory>
        ensures { IfOk result (λ words. words.asker ≡ None) }
    {
        Ok(Words {
            asker: None,
            slots: empty_slots(alloc, world.resources().min(MOST))?,
            alikes: empty_slots(alloc, world.resources().min(MOST_ALIKES))?,
        })
    }

    /// The class of principal p and resource r, which are of no known one. That of a resource that is alike serves where none of the
    /// statements that stand with resource r is about the principal, and that of the bits where they tell of the same list, or of none.
    pub fn class_at(
        &mut self,
        alloc: Global,
        source: &mut Source<'a>,
        memo: &mut Memo<'a>,
        p: u64,
        r: u64,
    ) -> Result<Found, OutOfMemory>
        requires world { source.old.world ≡ memo.old.world }
        requires principal { p < length memo.old.world.principals }
        requires resource { r < length memo.old.world.resources }
        requires words { AreWords memo.old.world memo.old.classes self.old }
        ensures class { IfOk result (λ found. HasClass memo.new.world memo.new.classes p r found.class) }
        ensures kept { IfOk result (λ found. found.cleared ≡ false → HasMore memo.old.classes memo.new.classes) }
        ensures let_go { IfOk result (λ found. found.cleared ≡ true → length memo.new.classes ≡ 1) }
        ensures words { AreWords memo.new.world memo.new.classes self.new }
        ensures source { source.new ≡ source.old }
        ensures same { IsSameMemo memo.old memo.new }
    {
        self.turn_to(alloc, source.index(), p);
        let number = self.number(r);
        if let Some(class) = self.alike_class(number, r) {
            memo.keep_class(p, r, class);
            return Ok(Found {
                class,
                cleared: false,
            });
        }
        self.told_class(alloc, source, memo, p, r)
    }

    /// The same of principal p, which asked last, where no alike resource has a class that serves.
    #[inline(never)]
    fn told_class(
        &mut self,
        alloc: Global,
        source: &mut Source<'a>,
        memo: &mut Memo<'a>,
        p: u64,
        r: u64,
    ) -> Result<Found, OutOfMemory>
        requires world { source.old.world ≡ memo.old.world }
        requires principal { p < length memo.old.world.principals }
        requires resource { r < length memo.old.world.resources }
        requires words { AreWords memo.old.world memo.old.classes self.old }
        requires asker { (asker : Asker) × (self.old.asker ≡ Some asker) × (asker.principal ≡ p) }
        ensures class { IfOk result (λ found. HasClass memo.new.world memo.new.classes p r found.class) }
        ensures kept { IfOk result (λ found. found.cleared ≡ false → HasMore memo.old.classes memo.new.classes) }
        ensures let_go { IfOk result (λ found. found.cleared ≡ true → length memo.new.classes ≡ 1) }
        ensures words { AreWords memo.new.world memo.new.classes self.new }
        ensures source { source.new ≡ source.old }
        ensures same { IsSameMemo memo.old memo.new }
    {
        let number = self.number(r);
        match self.told(alloc, source, p, r)? {
            Told::Words(bits) => {
                let found = self.class_by(alloc, source, memo, p, r, bits)?;
                self.keep_alike(alike_by(number, bits), found.class);
                Ok(found)
            }
            Told::Shared(shared) => self.class_with(alloc, memo, p, r, shared),
        }
    }

    /// Turns to principal p: what is kept of another is let go.
    fn turn_to(&mut self, alloc: Global, index: &'a Index<'a>, p: u64)
        requires { p < length index.now.principals }
        ensures asker { (asker : Asker) × (self.new.asker ≡ Some asker) × (asker.principal ≡ p) }
        ensures right { (classes : List Class) → AreWords index.entry.now classes self.old → AreWords index.entry.now classes self.new }
    {
        if let Some(asker) = &self.asker {
            if asker.principal() == p {
                return;
            }
        }
        self.begin(alloc, index, p);
    }

    /// The same where another principal asked last, or none.
    #[inline(never)]
    fn begin(&mut self, alloc: Global, index: &'a Index<'a>, p: u64)
        requires { p < length index.now.principals }
        ensures asker { (asker : Asker) × (self.new.asker ≡ Some asker) × (asker.principal ≡ p) }
        ensures right { (classes : List Class) → AreWords index.entry.now classes self.new }
    {
        self.forget();
        self.asker = Some(Asking::of(alloc, index, p));
    }

    /// What is known of the requests of principal p, which asked last, for resource r.
    fn told(
        &mut self,
        alloc: Global,
        source: &mut Source<'a>,
        p: u64,
        r: u64,
    ) -> Result<Told<'a>, OutOfMemory>
        requires principal { p < length source.old.world.principals }
        requires resource { r < length source.old.world.resources }
        requires asker { (asker : Asker) × (self.old.asker ≡ Some asker) × IsAsker source.old.world p asker }
        ensures told { (asker : Asker) → self.old.asker ≡ Some asker → IfOk result (IsTold source.old.world p r asker) }
        ensures source { source.new ≡ source.old }
        ensures same { self.new ≡ self.old }
    {
        match &mut self.asker {
            Some(asker) => source.told(alloc, asker, p, r),
            None => unreachable!(),
        }
    }

    /// The class of principal p and resource r, whose requests have these bits.
    fn class_by(
        &mut self,
        alloc: Global,
        source: &Source<'a>,
        memo: &mut Memo<'a>,
        p: u64,
        r: u64,
        bits: Bits,
    ) -> Result<Found, OutOfMemory>
        requires world { source.now.world ≡ memo.old.world }
        requires principal { p < length memo.old.world.principals }
        requires resource { r < length memo.old.world.resources }
        requires words { AreWords memo.old.world memo.old.classes self.old }
        requires bits { (asker : Asker) × (self.old.asker ≡ Some asker) × (asker.principal ≡ p)
            × AreBitsAt memo.old.world p r asker bits }
        ensures class { IfOk result (λ found. HasClass memo.new.world memo.new.classes p r found.class) }
        ensures kept { IfOk result (λ found. found.cleared ≡ false → HasMore memo.old.classes memo.new.classes) }
        ensures let_go { IfOk result (λ found. found.cleared ≡ true → length memo.new.classes ≡ 1) }
        ensures found { (asker : Asker) → self.old.asker ≡ Some asker → bits.resource ≡ 0 → IfOk result (λ found.
            IsFoundAmong memo.new.world memo.new.classes p r (statements_of asker.listing) found.class) }
        ensures words { AreWords memo.new.world memo.new.classes self.new }
        ensures asker { self.new.asker ≡ self.old.asker }
        ensures same { IsSameMemo memo.old memo.new }
    {
        let frame = source.frame(p, r);
        if let Some(class) = self.class(bits, frame) {
            if are_same(memo.frame(class), frame) {
                memo.keep_class(p, r, class);
                return Ok(Found {
                    class,
                    cleared: false,
                });
            }
        }
        let shared = self.shared_by(alloc, frame, bits)?;
        let found = self.class_with(alloc, memo, p, r, Held::own(shared))?;
        self.keep(bits, frame, found.class);
        Ok(found)
    }

    /// What the requests share that have these bits.
    fn shared_by(&self, alloc: Global, frame: Frame, bits: Bits) -> Result<Shared<'a>, OutOfMemory>
        ensures { (asker : Asker) → self.now.asker ≡ Some asker
            → IfOk result (λ shared. (shared.frame ≡ frame) × LiveByBits asker bits shared.living) }
    {
        match &self.asker {
            Some(asker) => {
                let living = asker.living(alloc, bits)?;
                Ok(Shared::of(frame, living))
            }
            None => Ok(Shared::of(frame, Vec::new(alloc))),
        }
    }

    /// Puts principal p and resource r, whose requests share this, into a class; words go with classes that are let go.
    fn class_with(
        &mut self,
        alloc: Global,
        memo: &mut Memo<'a>,
        p: u64,
        r: u64,
        shared: Held<'a>,
    ) -> Result<Found, OutOfMemory>
        requires shared { IsSharedAt memo.old.world p r shared }
        requires words { AreWords memo.old.world memo.old.classes self.old }
        ensures class { IfOk result (λ found. HasClass memo.new.world memo.new.classes p r found.class) }
        ensures shared { IfOk result (λ found. HasShared memo.new.classes shared.entry found.class) }
        ensures kept { IfOk result (λ found. found.cleared ≡ false → HasMore memo.old.classes memo.new.classes) }
        ensures let_go { IfOk result (λ found. found.cleared ≡ true → length memo.new.classes ≡ 1) }
        ensures words { AreWords memo.new.world memo.new.classes self.new }
        ensures asker { self.new.asker ≡ self.old.asker }
        ensures same { IsSameMemo memo.old memo.new }
    {
        match memo.class_with(alloc, p, r, shared) {
            Ok(found) => {
                if found.cleared {
                    self.forget();
                }
                Ok(found)
            }
            Err(fault) => {
                self.forget();
                Err(fault)
            }
        }
    }

    /// Lets go all words, and all classes of alike resources.
    fn forget(&mut self)
        ensures empty { AreEmpty self.new.slots.items }
        ensures alikes { AreEmpty self.new.alikes.items }
        ensures asker { self.new.asker ≡ self.old.asker }
    {
        empty(&mut self.slots);
        empty(&mut self.alikes);
    }

    /// The number that resource r has with others that are alike, where it has one.
    #[inline(always)]
    fn number(&self, r: u64) -> Option<usize>
        ensures { IfSome result (λ n. (asker : Asker) × (self.now.asker ≡ Some asker) × Keeps asker.listing.alikes r n
            × AreAlikes asker.listing) }
    {
        match &self.asker {
            Some(asker) => asker.alike(r),
            None => None,
        }
    }

    /// The class that is kept for resources of this number, where none of the statements that stand with resource r is about the
    /// principal.
    fn alike_class(&mut self, number: Option<usize>, r: u64) -> Option<usize>
        requires { (asker : Asker) × (world : WorldValue) × (self.old.asker ≡ Some asker) × IsAsker world asker.principal asker
            × (r < length world.resources) }
        ensures class { IfSome result (λ class. (n : ℕ) × (number ≡ Some n) × Keeps self.old.alikes.items n class
            × ((world : WorldValue) (asker : Asker) → self.old.asker ≡ Some asker → IsAsker world asker.principal asker
            → NoneConcerns world asker.principal r)) }
        ensures same { self.new ≡ self.old }
    {
        let class = kept(self.alikes.as_slice(), number? as u64)?;
        if self.none_concerns(r) {
            Some(class)
        } else {
            None
        }
    }

    /// Whether none of the statements that stand with resource r is about the principal.
    fn none_concerns(&mut self, r: u64) -> bool
        requires { (asker : Asker) × (world : WorldValue) × (self.old.asker ≡ Some asker) × IsAsker world asker.principal asker
            × (r < length world.resources) }
        ensures none { IsTrue result → (world : WorldValue) (asker : Asker) → self.old.asker ≡ Some asker
            → IsAsker world asker.principal asker → NoneConcerns world asker.principal r }
        ensures same { self.new ≡ self.old }
    {
        match &mut self.asker {
            Some(asker) => asker.none_concerns(r),
            None => false,
        }
    }

    /// Keeps a class for resources of this number, if there is room for it.
    fn keep_alike(&mut self, number: Option<usize>, class: usize)
        ensures gains { GainsAt self.old.alikes.items self.new.alikes.items number class }
        ensures slots { self.new.slots ≡ self.old.slots }
        ensures asker { self.new.asker ≡ self.old.asker }
    {
        if let Some(n) = number {
            keep(&mut self.alikes, n as u64, class);
        }
    }

    /// The class that is kept for these bits, in the slot of requests that ask this beside the statements.
    #[inline(always)]
    fn class(&self, bits: Bits, frame: Frame) -> Option<usize>
        ensures { IfSome result (λ class. (slot : ℕ) × Keeps self.now.slots.items slot (record { bits = bits; class = class })) }
    {
        let it = kept(
            self.slots.as_slice(),
            slot_for(bits, frame, self.slots.len()),
        )?;
        if are_same_bits(it.bits, bits) {
            Some(it.class)
        } else {
            None
        }
    }

    /// Keeps a class for these bits, in that slot.
    fn keep(&mut self, bits: Bits, frame: Frame, class: usize)
        ensures gains { GainsOnly self.old.slots.items self.new.slots.items (record { bits = bits; class = class }) }
        ensures alikes { self.new.alikes ≡ self.old.alikes }
        ensures asker { self.new.asker ≡ self.old.asker }
    {
        let slot = slot_for(bits, frame, self.slots.len());
        keep(&mut self.slots, slot, Word { bits, class });
    }
}

/// `true` only where both are the same.
fn are_same(one: Frame, other: Frame) -> bool
    ensures { IsTrue result → one ≡ other }
{
    one == other
}

/// `true` only where both are the same.
fn are_same_bits(one: Bits, other: Bits) -> bool
    ensures { IsTrue result → one ≡ other }
{
    one == other
}

/// The number of a resource that is alike to others, where by the bits none of the statements lives that stand with it.
fn alike_by(number: Option<usize>, bits: Bits) -> Option<usize>
    ensures { IfSome result (λ n. (number ≡ Some n) × (bits.resource ≡ 0)) }
{
    if bits.resource == 0 { number } else { None }
}

/// A slot for the bits of requests that ask this beside the statements, among so many.
fn slot_for(bits: Bits, frame: Frame, slots: usize) -> u64 {
    let list = (bits.list as u64).wrapping_mul(0x1656_67B1_9E37_79F9);
    let resource = bits.resource.wrapping_add(list);
    let word = bits
        .principal
        .wrapping_add(resource.wrapping_mul(0xC2B2_AE3D_27D4_EB4F));
    let mixed = word.wrapping_mul(0x9E37_79B9_7F4A_7C15) >> 32;
    slot_of(frame.print(), mixed, slots)
}
