// Items one behind the other, of which equal ones are kept once.
ghost use Rattle.std.specs.Prelude.{◌≡◌, ◌<◌, ◌^◌, ◌++◌, ◌∷◌, [], ◌≤◌, All, IfOk, IfSome, IsTrue, OnErr, OnOk, Some, length, slice_get, List};
ghost use Rattle.iam_tiles.specs.Code.Numbered.{IsPut, picked};

use crate::guess::{Guesses, Hints, STEPS};
use crate::numbers::Numbers;
use iam_text::OutOfMemory;
use std::alloc::Global;
use std::marker::Model;

/// What may be kept.
pub trait Item: Drop {
    // What would stand where a number has no item.
    ghost none: { Self };
}

/// What stands for an item before there is one to keep.
pub trait Form<T> {
    // The item that it stands for.
    ghost means: { Self → T };

    /// Whether this is found to be the item.
    fn is(&self, item: &T) -> bool
        ensures { IsTrue result → item.now ≡ means self.now };

    /// The item.
    fn copy(&self, alloc: Global) -> Result<T, OutOfMemory>
        ensures { IfOk result (λ item. item ≡ means self.now) };

    /// A number by which it may be found again, of which nothing is claimed.
    fn hash(&self) -> u64;
}

/// Items one behind the other. A contract sees their list; each is kept as a small number, and equal ones mostly have the
/// same.
#[derive(Debug, Drop)]
pub struct Kept<T: Item> {
    distinct: Vec<T>,
    // The number of each in `distinct`.
    numbers: Numbers,
    guesses: Guesses,
    hints: Hints,
}

impl<T: Item> Model for Kept<T> {
    ghost Value = { List T };

    ghost view = { λ kept. picked T.none kept.distinct.items kept.numbers };

    ghost invariant = { λ kept. All (λ n. n < length kept.distinct.items) kept.numbers × (length kept.distinct.items ≤ length kept.numbers) };
}

impl<T: Item> Kept<T> {
    /// None yet, with room for so many.
    pub fn new(alloc: Global, room: usize) -> Result<Kept<T>, OutOfMemory>
        ensures { IfOk result (λ kept. kept ≡ []) }
    {
        Ok(Kept {
            distinct: Vec::new(alloc),
            numbers: Numbers::new(alloc, room)?,
            guesses: Guesses::new(alloc),
            hints: Hints::new(alloc),
        })
    }

    /// How many.
    pub fn len(&self) -> usize
        ensures { result ≡ length self.now }
    {
        self.numbers.len()
    }

    /// Puts an item behind the others, fewer than 2 ^ 32. It is copied where no equal one is found, and found at once where an
    /// equal one was the last to come with this hint, a number of which nothing is claimed.
    #[inline(always)]
    pub fn push<F: Form<T>>(
        &mut self,
        alloc: Global,
        hint: usize,
        form: &F,
    ) -> Result<(), OutOfMemory>
        requires { length self.old < 2 ^ 32 }
        ensures ok { OnOk result (self.new ≡ self.old ++ F.means form.now ∷ []) }
        ensures err { OnErr result (self.new ≡ self.old) }
    {
        if let Some(number) = self.hints.at(hint) {
            if is_at(self.distinct.as_slice(), number, form) {
                return self.numbers.push(number);
            }
        }
        self.push_other(alloc, hint, form)
    }

    /// Puts an item behind the others to which its hint does not lead.
    #[inline(never)]
    fn push_other<F: Form<T>>(
        &mut self,
        alloc: Global,
        hint: usize,
        form: &F,
    ) -> Result<(), OutOfMemory>
        requires { length self.old < 2 ^ 32 }
        ensures ok { OnOk result (self.new ≡ self.old ++ F.means form.now ∷ []) }
        ensures err { OnErr result (self.new ≡ self.old) }
    {
        let number = put(
            alloc,
            &mut self.distinct,
            &mut self.numbers,
            &mut self.guesses,
            form,
        )?;
        self.hints.set(hint, number);
        Ok(())
    }

    /// Puts the item of this place, which has to be there, once more behind all.
    #[inline(always)]
    pub fn push_again(&mut self, place: usize) -> Result<(), OutOfMemory>
        requires { place < length self.old }
        ensures ok { (item : T) → slice_get self.old place ≡ Some item → OnOk result (self.new ≡ self.old ++ item ∷ []) }
        ensures err { OnErr result (self.new ≡ self.old) }
    {
        self.numbers.push_again(place)
    }

    /// The different items, and the number of each item among them.
    pub fn parts(self) -> (Vec<T>, Numbers)
        ensures items { picked T.none result.0.items result.1 ≡ self }
        ensures known { All (λ n. n < length result.0.items) result.1 }
    {
        let Kept {
            distinct,
            numbers,
            guesses: _,
            hints: _,
        } = self;
        (distinct, numbers)
    }
}

/// Puts an item behind the others; its number. It is copied where none of them is found to be equal.
fn put<T: Item, F: Form<T>>(
    alloc: Global,
    distinct: &mut Vec<T>,
    numbers: &mut Numbers,
    guesses: &mut Guesses,
    form: &F,
) -> Result<u32, OutOfMemory>
    requires { length distinct.old.items < 2 ^ 32 }
    ensures put { IfOk result (λ number. IsPut (F.means form.now) number distinct.old.items numbers.old distinct.new.items numbers.new) }
    ensures refused { OnErr result ((distinct.new.items ≡ distinct.old.items) × (numbers.new ≡ numbers.old)) }
{
    match seek(guesses, distinct.as_slice(), form.hash(), form) {
        Some(number) => {
            numbers.push(number)?;
            Ok(number)
        }
        None => add(alloc, distinct, numbers, guesses, form),
    }
}

/// The number of an equal item, where one is found.
fn seek<T: Item, F: Form<T>>(guesses: &Guesses, distinct: &[T], hash: u64, form: &F) -> Option<u32>
    ensures { IfSome result (λ number. slice_get distinct.now number ≡ Some (F.means form.now)) }
{
    for step in 0..STEPS {
        let number = guesses.at(hash, step)?;
        if is_at(distinct, number, form) {
            return Some(number);
        }
    }
    None
}

/// Puts a copy of an item behind the others; its number.
fn add<T: Item, F: Form<T>>(
    alloc: Global,
    distinct: &mut Vec<T>,
    numbers: &mut Numbers,
    guesses: &mut Guesses,
    form: &F,
) -> Result<u32, OutOfMemory>
    requires { length distinct.old.items < 2 ^ 32 }
    ensures put { IfOk result (λ number. IsPut (F.means form.now) number distinct.old.items numbers.old distinct.new.items numbers.new) }
    ensures refused { OnErr result ((distinct.new.items ≡ distinct.old.items) × (numbers.new ≡ numbers.old)) }
{
    let number = distinct.len() as u32;
    let copy = form.copy(alloc)?;
    distinct.reserve(1)?;
    numbers.push(number)?;
    match distinct.push(copy) {
        Ok(()) => {}
        Err(_) => unreachable!(),
    }
    guesses.keep(alloc, form.hash(), number);
    Ok(number)
}

/// Whether the item of this number is found to be equal.
#[inline(always)]
fn is_at<T: Item, F: Form<T>>(distinct: &[T], number: u32, form: &F) -> bool
    ensures { IsTrue result → slice_get distinct.now number ≡ Some (F.means form.now) }
{
    match distinct.get(number as usize) {
        Some(other) => form.is(other),
        None => false,
    }
}
