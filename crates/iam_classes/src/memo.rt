// What an engine keeps: the classes of pairs, the acts of action elements, and verdicts by their numbers.
ghost use Rattle.std.specs.Prelude.{◌≡◌, ◌<◌, ◌≤◌, ◌+◌, ◌*◌, [], IfOk, ℕ, IfSome, None, OnOk, Some, false, length, true};
ghost use Rattle.iam_columns.specs.Slots.{AreEmpty};
ghost use Rattle.iam_classes.specs.Memo.{ArePairs, FindsAlike, HasClass, HasMore, HasNumber, HasRuling, HasShared, HasVerdict, HasSigned, IsFreeFor, IsSameMemo, IsSign, IsRight, MemoValue};

use crate::batch::decided;
use crate::held::Held;
use crate::lanes::Decided;
use crate::span::TOGETHER;
use iam_columns::{
    Numbered, WIDTH, empty, empty_slots, keep, keep_number, kept, number_in, slot_at, slot_of,
};
use iam_decision::acting_are_found;
use iam_index::{Elements, Index, Sign, keep_signed, number_signed, put_acting, signature};
use iam_layers::{Frame, Matched, Ruling, Shared, Verdict, World};
use iam_text::OutOfMemory;
use std::alloc::Global;
use std::marker::Model;

/// How many statements, how many pairs, how many answers and how many verdicts the engines of a run keep together at most;
/// of pairs and answers up to twice as many.
const MOST_STATEMENTS: usize = 2_097_152;

const MOST_PAIRS: u64 = 131_072;

const MOST_ANSWERS: u64 = 131_072;

const MOST_VERDICTS: usize = 262_144;

/// The classes and the verdicts that were found last, by the prints of what they hang on.
const PRINTS: u64 = 4_096;

/// The verdicts that were found last, by the signatures of actions.
const SIGNS: u64 = 4_096;

/// Requests that share the same: what they share, and what the action elements of its statements match, where it is kept.
#[derive(Drop)]
pub struct Class<'a> {
    pub shared: Held<'a>,
    pub rows: Vec<&'a [bool]>,
}

/// Slots for the classes of a world's pairs, about so many at most; none where there is one action, so that no requests share anything.
fn pair_slots(alloc: Global, world: &World, most: u64) -> Result<Vec<Option<Numbered>>, OutOfMemory>
    ensures { IfOk result (λ slots. AreEmpty slots.items) }
{
    if world.actions() < 2 {
        return Ok(Vec::new(alloc));
    }
    let pairs = world.principals().saturating_mul(world.resources());
    empty_slots(alloc, pairs.min(most))
}

/// A class, and whether all that there were before were let go for it.
#[derive(Clone, Copy)]
pub struct Found {
    pub class: usize,
    pub cleared: bool,
}

/// Room for so many more statements, and how many there are at most.
#[derive(Clone, Copy)]
pub struct Room {
    pub left: usize,
    pub most: usize,
}

/// What is kept: requests that share the same are a class, and of some classes and actions the verdict is known. A contract
/// sees the world, the classes, the verdicts with what they follow from, and how many of them may be kept.
#[derive(Drop)]
pub struct Memo<'a> {
    world: &'a World,
    elements: &'a Elements<'a>,
    classes: Vec<Class<'a>>,
    rulings: Vec<Ruling>,
    // The class of a principal and a resource, and the number of the verdict on a class and an action, and on a class and the
    // actions of a signature.
    pairs: Vec<Option<Numbered>>,
    answers: Vec<Option<Numbered>>,
    signs: Vec<Option<Sign>>,
    // By a print the class, and the ruling, that was last found with it: a hint.
    class_prints: Vec<Option<usize>>,
    ruling_prints: Vec<Option<usize>>,
    // How many resources there are: as wide are the rows of pairs.
    resources: u64,
    room: Room,
    most_verdicts: usize,
}

impl<'a> Model for Memo<'a> {
    ghost Value = { MemoValue };

    ghost view = { λ memo. record {
      world = memo.world.now;
      classes = memo.classes.items;
      rulings = memo.rulings.items;
      room = memo.room;
      most_verdicts = memo.most_verdicts;
    } };

    ghost invariant = { λ memo. IsRight memo.world.now memo.elements.now.elements.items memo.classes.items memo.rulings.items
        memo.pairs.items memo.answers.items memo.signs.items memo.room memo.most_verdicts };
}

impl<'a> Memo<'a> {
    ghost use Rattle.std.specs.List.{slice_get};
    ghost use Rattle.iam_layers.specs.Cell.{IsAction, IsSharedAt, IsVerdictAt};
    ghost use Rattle.iam_classes.specs.Batches.{IsBatch, RowsTell};
    ghost use Rattle.iam_classes.specs.declared.memo.Class.{Class};

    /// A memo of the world of an index, one of so many that share the bounds, which keeps nothing yet.
    pub fn new(alloc: Global, index: &'a Index<'a>, memos: u32) -> Result<Memo<'a>, OutOfMemory>
        ensures world { IfOk result (λ memo. memo.world ≡ index.entry.now) }
        ensures room { IfOk result (λ memo. memo.room.most ≤ 2097152) }
        ensures verdicts { IfOk result (λ memo. memo.most_verdicts ≤ 262144) }
    {
        let world = index.world();
        let memos = memos.max(1);
        let all = world.principals().saturating_mul(world.resources());
        let answers = all.max(WIDTH).saturating_mul(world.actions());
        let most = MOST_STATEMENTS / memos as usize;
        Ok(Memo {
            world,
            elements: index.elements(),
            classes: Vec::new(alloc),
            rulings: Vec::new(alloc),
            pairs: pair_slots(alloc, world, MOST_PAIRS / memos as u64)?,
            answers: empty_slots(alloc, answers.min(MOST_ANSWERS / memos as u64))?,
            signs: empty_slots(alloc, answers.min(SIGNS))?,
            class_prints: empty_slots(alloc, PRINTS)?,
            ruling_prints: empty_slots(alloc, PRINTS)?,
            resources: world.resources(),
            room: Room { left: most, most },
            most_verdicts: (MOST_VERDICTS / memos as usize).max(1),
        })
    }

    /// The world on whose requests it is.
    pub fn world(&self) -> &'a World
        ensures { result.now ≡ self.now.world }
    {
        self.world
    }

    /// The class of principal p and resource r, where it is known.
    #[inline(always)]
    pub fn class_of(&self, p: u64, r: u64) -> Option<usize>
        ensures { IfSome result (HasClass self.now.world self.now.classes p r) }
    {
        let slot = slot_at(p, self.resources, r, self.pairs.len());
        number_in(self.pairs.as_slice(), slot, p, r)
    }

    /// The pairs whose classes are known, from principal p and resource r on, as they lie side by side. Where the class of one is
    /// not known stands none, or another.
    pub fn pairs_from(&self, p: u64, r: u64) -> &[Option<Numbered>]
        ensures { ArePairs self.now.world self.now.classes result.now }
    {
        let pairs = self.pairs.as_slice();
        let slot = slot_at(p, self.resources, r, pairs.len()) as usize;
        if slot < pairs.len() {
            &pairs[slot..]
        } else {
            &[]
        }
    }

    /// Puts the pair of principal p and resource r, which share this, into a class.
    pub fn class_with(
        &mut self,
        alloc: Global,
        p: u64,
        r: u64,
        shared: Held<'a>,
    ) -> Result<Found, OutOfMemory>
        requires { IsSharedAt self.old.world p r shared }
        ensures class { IfOk result (λ found. HasClass self.new.world self.new.classes p r found.class) }
        ensures shared { IfOk result (λ found. HasShared self.new.classes shared.entry found.class) }
        ensures kept { IfOk result (λ found. found.cleared ≡ false → HasMore self.old.classes self.new.classes) }
        ensures let_go { IfOk result (λ found. found.cleared ≡ true → length self.new.classes ≡ 1) }
        ensures same { IsSameMemo self.old self.new }
    {
        let found = self.class_sharing(alloc, shared)?;
        self.keep_class(p, r, found.class);
        Ok(found)
    }

    /// Keeps the class of principal p and resource r.
    pub fn keep_class(&mut self, p: u64, r: u64, class: usize)
        requires { HasClass self.old.world self.old.classes p r class }
        ensures { self.new ≡ self.old }
    {
        let slot = slot_at(p, self.resources, r, self.pairs.len());
        keep_number(&mut self.pairs, slot, p, r, class);
    }

    /// What the decisions on requests of a class ask beside the statements.
    pub fn frame(&self, class: usize) -> Frame
        requires { class < length self.now.classes }
        ensures { (it : Class) → slice_get self.now.classes class ≡ Some it → result ≡ it.shared.frame }
    {
        self.classes[class].shared.get().frame()
    }

    /// The class of requests that share this: one that is there, or a new one. Where there is no room for a new one,
    /// everything that was kept is let go.
    fn class_sharing(&mut self, alloc: Global, shared: Held<'a>) -> Result<Found, OutOfMemory>
        ensures class { IfOk result (λ found. HasShared self.new.classes shared.entry found.class) }
        ensures kept { IfOk result (λ found. found.cleared ≡ false → HasMore self.old.classes self.new.classes) }
        ensures let_go { IfOk result (λ found. found.cleared ≡ true → length self.new.classes ≡ 1) }
        ensures needed { IfOk result (λ found. found.cleared ≡ true → self.old.room.left ≤ length shared.entry.living) }
        ensures same { IsSameMemo self.old self.new }
    {
        let print = shared.get().print();
        if let Some(class) = self.class_printed(print, shared.get()) {
            return Ok(Found {
                class,
                cleared: false,
            });
        }
        let cleared = self.room.left <= shared.get().living().len();
        self.clear_if(cleared);
        let class = self.add(alloc, print, shared)?;
        Ok(Found { class, cleared })
    }

    /// The class that was last found with this print, if its requests share just this.
    fn class_printed(&self, print: u64, shared: &Shared<'_>) -> Option<usize>
        ensures { IfSome result (HasShared self.now.classes shared.now) }
    {
        let class = kept(
            self.class_prints.as_slice(),
            slot_of(0, print, PRINTS as usize),
        )?;
        if class < self.classes.len() && self.classes[class].shared.get().equals(shared) {
            Some(class)
        } else {
            None
        }
    }

    /// Lets go everything that is kept, where that has to be.
    fn clear_if(&mut self, cleared: bool)
        ensures kept { cleared ≡ false → self.new.classes ≡ self.old.classes }
        ensures cleared { cleared ≡ true → self.new.classes ≡ [] }
        ensures rulings { cleared ≡ true → self.new.rulings ≡ [] }
        ensures room { cleared ≡ false → self.new.room ≡ self.old.room }
        ensures same { IsSameMemo self.old self.new }
    {
        if cleared {
            empty(&mut self.pairs);
            empty(&mut self.answers);
            empty(&mut self.signs);
            self.classes.clear();
            self.rulings.clear();
            self.room.left = self.room.most;
        }
    }

    /// Adds the class of requests that share this, and takes its room.
    fn add(&mut self, alloc: Global, print: u64, shared: Held<'a>) -> Result<usize, OutOfMemory>
        requires { IsFreeFor self.old.room self.old.classes shared }
        ensures class { IfOk result (HasShared self.new.classes shared.entry) }
        ensures kept { OnOk result (HasMore self.old.classes self.new.classes) }
        ensures count { OnOk result (length self.new.classes ≡ length self.old.classes + 1) }
        ensures same { IsSameMemo self.old self.new }
    {
        let living = shared.get().living();
        let statements = living.len();
        let rows = self.elements.rows(alloc, living)?;
        let class = self.classes.len();
        self.classes.push(Class { shared, rows })?;
        let left = self.room.left.saturating_sub(statements);
        self.room.left = left.saturating_sub(1);
        keep(
            &mut self.class_prints,
            slot_of(0, print, PRINTS as usize),
            class,
        );
        Ok(class)
    }

    /// The number of the verdict on requests of the class for action a. Room for the statements that match them is lent.
    #[inline(always)]
    pub fn number(
        &mut self,
        alloc: Global,
        found: &mut Vec<Matched>,
        class: usize,
        a: u64,
    ) -> Result<usize, OutOfMemory>
        requires action { a < length self.old.world.actions }
        requires class { class < length self.old.classes }
        ensures number { IfOk result (HasNumber self.new.world self.new.classes self.new.rulings class a) }
        ensures classes { self.new.classes ≡ self.old.classes }
        ensures same { IsSameMemo self.old self.new }
    {
        match self.number_of(class, a) {
            Some(number) => Ok(number),
            None => self.find_number(alloc, found, class, a),
        }
    }

    /// The number of the verdict on requests of the class for action a, where it is known.
    #[inline(always)]
    fn number_of(&self, class: usize, a: u64) -> Option<usize>
        ensures { IfSome result (HasNumber self.now.world self.now.classes self.now.rulings class a) }
    {
        let slot = slot_of(a, class as u64, self.answers.len());
        number_in(self.answers.as_slice(), slot, class as u64, a)
    }

    /// The same where it is not known: that of actions of the same signature, or else from the statements of the class that act.
    #[inline(never)]
    fn find_number(
        &mut self,
        alloc: Global,
        found: &mut Vec<Matched>,
        class: usize,
        a: u64,
    ) -> Result<usize, OutOfMemory>
        requires action { a < length self.old.world.actions }
        requires class { class < length self.old.classes }
        ensures number { IfOk result (HasNumber self.new.world self.new.classes self.new.rulings class a) }
        ensures classes { self.new.classes ≡ self.old.classes }
        ensures same { IsSameMemo self.old self.new }
    {
        let word = self.signature(class, a);
        if let Some(number) = self.number_of_sign(class, word) {
            self.keep_number(class, a, None, number);
            return Ok(number);
        }
        let frame = self.find(found, class, a, self.world.action_text(a))?;
        let number = self.ruling(alloc, frame, found.as_slice())?;
        self.keep_number(class, a, word, number);
        Ok(number)
    }

    /// The signature of action a in the class, where it has one.
    fn signature(&self, class: usize, a: u64) -> Option<u64>
        requires { class < length self.now.classes }
        ensures { IfSome result (IsSign self.now.world self.now.classes class a) }
    {
        signature(self.classes[class].rows.as_slice(), a)
    }

    /// The number of the verdict on requests of the class for actions of the signature, where it is known.
    fn number_of_sign(&self, class: usize, word: Option<u64>) -> Option<usize>
        ensures { IfSome result (λ number. (a : ℕ) → IfSome word (IsSign self.now.world self.now.classes class a)
            → HasNumber self.now.world self.now.classes self.now.rulings class a number) }
    {
        number_signed(self.signs.as_slice(), class, word)
    }

    /// Keeps the number of the verdict on requests of the class for action a, and for actions of the signature, where there is one.
    fn keep_number(&mut self, class: usize, a: u64, word: Option<u64>, number: usize)
        requires number { HasNumber self.old.world self.old.classes self.old.rulings class a number }
        requires sign { IfSome word (λ w. HasSigned self.old.world self.old.classes self.old.rulings class w number) }
        ensures { self.new ≡ self.old }
    {
        let slot = slot_of(a, class as u64, self.answers.len());
        keep_number(&mut self.answers, slot, class as u64, a, number);
        keep_signed(&mut self.signs, class, word, number);
    }

    /// What is decided on requests of the class for the batch of actions of this number, where the rows of its statements tell; `None` only where they do not.
    pub fn decided(&self, class: usize, number: u64) -> Option<Decided>
        requires actions { 64 * number < length self.now.world.actions }
        requires class { class < length self.now.classes }
        ensures some { IfSome result (IsBatch self.now.world self.now.classes class number) }
        ensures none { (it : Class) → slice_get self.now.classes class ≡ Some it → result ≡ None → ¬ RowsTell self.now.world it number }
    {
        let actions = self.world.actions();
        let from = number * TOGETHER;
        let count = TOGETHER.min(actions - from);
        let class = &self.classes[class];
        let shared = class.shared.get();
        decided(
            shared.frame(),
            shared.living(),
            class.rows.as_slice(),
            from as usize,
            count as usize,
        )
    }

    /// Puts the statements that match requests of the class for action a, which has this text, into `found`, in place of what
    /// is there; what is asked beside them.
    fn find(
        &self,
        found: &mut Vec<Matched>,
        class: usize,
        a: u64,
        text: &str,
    ) -> Result<Frame, OutOfMemory>
        requires { class < length self.now.classes }
        ensures { (it : Class) → slice_get self.now.classes class ≡ Some it → IsAction self.now.world a text.now
            → IfOk result (λ frame. FindsAlike self.now.world it.shared text.now frame found.new.items) }
    {
        let class = &self.classes[class];
        let rows = class.rows.as_slice();
        let shared = class.shared.get();
        acting_are_found();
        put_acting(found, shared.living(), rows, a, text)?;
        Ok(shared.frame())
    }

    /// The number of the verdict that follows from this; it is made where it is not kept.
    fn ruling(
        &mut self,
        alloc: Global,
        frame: Frame,
        found: &[Matched],
    ) -> Result<usize, OutOfMemory>
        ensures number { IfOk result (HasRuling self.new.rulings frame found.now) }
        ensures classes { self.new.classes ≡ self.old.classes }
        ensures same { IsSameMemo self.old self.new }
    {
        let slot = slot_of(0, Ruling::print(frame, found), PRINTS as usize);
        if let Some(number) = self.ruling_at(slot, frame, found) {
            return Ok(number);
        }
        self.bound_rulings();
        let number = self.rulings.len();
        let ruling = Ruling::of(alloc, frame, found)?;
        self.rulings.push(ruling)?;
        keep(&mut self.ruling_prints, slot, number);
        Ok(number)
    }

    /// The ruling that a slot has, if it follows from just this.
    fn ruling_at(&self, slot: u64, frame: Frame, found: &[Matched]) -> Option<usize>
        ensures { IfSome result (HasRuling self.now.rulings frame found.now) }
    {
        let number = kept(self.ruling_prints.as_slice(), slot)?;
        if number < self.rulings.len() && self.rulings[number].is_on(frame, found) {
            Some(number)
        } else {
            None
        }
    }

    /// Lets go the verdicts and the answers where there is no room for one verdict more.
    fn bound_rulings(&mut self)
        ensures room { length self.new.rulings < self.new.most_verdicts }
        ensures kept { length self.old.rulings < self.old.most_verdicts → self.new.rulings ≡ self.old.rulings }
        ensures classes { self.new.classes ≡ self.old.classes }
        ensures same { IsSameMemo self.old self.new }
    {
        if self.rulings.len() >= self.most_verdicts {
            empty(&mut self.answers);
            empty(&mut self.signs);
            self.rulings.clear();
        }
    }

    /// The verdict of a number, on the request that has it.
    #[inline(always)]
    pub fn verdict(&self, number: usize) -> &Verdict
        requires { number < length self.now.rulings }
        ensures { (p a r : ℕ) → HasVerdict self.now.world self.now.rulings p a r number → IsVerdictAt self.now.world p a r result.now }
    {
        self.rulings[number].verdict()
    }
}
