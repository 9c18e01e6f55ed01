// A principal that asks, and what is found again in its requests.
ghost use Rattle.std.specs.Prelude.{◌≡◌, ◌<◌, ◌++◌, All, IfOk, length, ℕ, IfSome, IsTrue, List, map};
ghost use Rattle.iam_layers.specs.Cell.{IsDerivedAt};
ghost use Rattle.iam_living.specs.Asker.{IsAsker, AreBitsOf, AreConcerns};
ghost use Rattle.iam_living.specs.Keys.{AreToldKeys, TellsLives};
ghost use Rattle.iam_living.specs.declared.asker.Asker.{Asker};

use crate::asker::{Asker, Bits};
use crate::keys::{Keys, Lives, known, lives_with, staying};
use iam_columns::{keep, kept, slots_or_none};
use iam_index::Index;
use iam_layers::Living;
use iam_text::OutOfMemory;
use std::alloc::Global;
use std::marker::Model;

/// So many lists are kept in mind at most.
const MOST: u64 = 4096;

/// A principal with what is listed for it, the derived keys of its requests that were made last, and what is told of statements where
/// these complete the context. A contract sees the principal with what is listed.
#[derive(Drop)]
pub struct Asking<'a> {
    asker: Asker<'a>,
    keys: Vec<Keys>,
    // By the number of a list, whether none of its statements is about the principal.
    concerns: Vec<Option<bool>>,
}

impl<'a> Model for Asking<'a> {
    ghost Value = { Asker };

    ghost view = { λ asking. asking.asker };

    ghost invariant = { λ asking. All (AreToldKeys asking.asker) asking.keys.items × AreConcerns asking.asker asking.concerns.items };
}

impl<'a> Asking<'a> {
    ghost use Rattle.iam_match.specs.Statement.{AccessValue};
    ghost use Rattle.iam_decision.specs.Living.{AreLiving, living_value};
    ghost use Rattle.iam_decision.specs.Matched.{Placed};
    ghost use Rattle.iam_columns.specs.Slots.{Keeps};
    ghost use Rattle.iam_world.specs.World.{WorldValue};
    ghost use Rattle.iam_living.specs.Listing.{AreAlikes};
    ghost use Rattle.iam_living.specs.Living.{NoneConcerns};

    /// Principal p.
    pub fn of(alloc: Global, index: &'a Index<'a>, p: u64) -> Asking<'a>
        requires { p < length index.now.principals }
        ensures asker { IsAsker index.entry.now p result }
        ensures principal { result.principal ≡ p }
    {
        let asker = Asker::of(index, p);
        let concerns = slots_or_none(alloc, (asker.lists.lists.len() as u64).min(MOST));
        Asking {
            asker,
            keys: Vec::new(alloc),
            concerns,
        }
    }

    /// The number of the principal.
    #[inline(always)]
    pub fn principal(&self) -> u64
        ensures { result ≡ self.now.principal }
    {
        self.asker.principal
    }

    /// The number that resource r has with others that are alike to the statements that are listed for it, where it has one.
    #[inline(always)]
    pub fn alike(&self, r: u64) -> Option<usize>
        ensures number { IfSome result (Keeps self.now.listing.alikes r) }
        ensures alikes { AreAlikes self.now.listing }
    {
        self.asker.listing.alike(r)
    }

    /// The statements that live by the bits, with what their principals grant it.
    pub fn living(&self, alloc: Global, bits: Bits) -> Result<Vec<Living<'a>>, OutOfMemory>
        ensures { (access : AccessValue) (statements : List Placed) → AreBitsOf self.now access statements bits → IfOk result (λ living.
            AreLiving access (self.now.listing.org ++ (statements ++ self.now.listing.own)) (map living_value living.items)) }
    {
        self.asker.living(alloc, bits)
    }

    /// `true` only where none of the statements that stand with resource r is about the principal, by its principal element: then none
    /// of them lives in its requests, in whatever context. A list is looked at once.
    pub fn none_concerns(&mut self, r: u64) -> bool
        requires { (world : WorldValue) × (p : ℕ) × IsAsker world p self.old × (r < length world.resources) }
        ensures none { (world : WorldValue) (p : ℕ) → IsAsker world p self.old → IsTrue result → NoneConcerns world p r }
        ensures same { self.new ≡ self.old }
    {
        let n = self.asker.lists.number(r);
        if let Some(none) = kept(self.concerns.as_slice(), n as u64) {
            return none;
        }
        let none = self.asker.none_concerns(n);
        keep(&mut self.concerns, n as u64, none);
        none
    }

    /// Which statements live in principal p's requests for resource r: by their bits where a word has bits for them, or else what the
    /// requests share.
    pub fn lives(
        &mut self,
        alloc: Global,
        index: &'a Index<'a>,
        p: u64,
        r: u64,
    ) -> Result<Lives<'a>, OutOfMemory>
        requires principal { p < length index.now.principals }
        requires resource { r < length index.now.resources }
        requires asker { IsAsker index.now p self.old }
        ensures lives { IfOk result (TellsLives index.entry.now p r self.old) }
        ensures same { self.new ≡ self.old }
    {
        lives_among(alloc, index, &self.asker, &mut self.keys, p, r)
    }
}

/// The same, where these derived keys are kept.
fn lives_among<'a>(
    alloc: Global,
    index: &'a Index<'a>,
    asker: &Asker<'a>,
    kept: &mut Vec<Keys>,
    p: u64,
    r: u64,
) -> Result<Lives<'a>, OutOfMemory>
    requires principal { p < length index.now.principals }
    requires resource { r < length index.now.resources }
    requires asker { IsAsker index.now p asker.now }
    requires keys { All (AreToldKeys asker.now) kept.old.items }
    ensures keys { All (AreToldKeys asker.now) kept.new.items }
    ensures lives { IfOk result (TellsLives index.entry.now p r asker.now) }
{
    if let Some(n) = known(index.world(), kept.as_slice(), p, r) {
        return lives_by(alloc, index, asker, &mut kept[n], p, r);
    }
    let mut keys = Keys {
        principal: p,
        resource: r,
        derived: index.world().derived(alloc, p, r)?,
        told: asker.none_told(alloc),
    };
    let lives = lives_by(alloc, index, asker, &mut keys, p, r)?;
    put(kept, keys);
    Ok(lives)
}

/// The same by these derived keys.
fn lives_by<'a>(
    alloc: Global,
    index: &'a Index<'a>,
    asker: &Asker<'a>,
    keys: &mut Keys,
    p: u64,
    r: u64,
) -> Result<Lives<'a>, OutOfMemory>
    requires principal { p < length index.now.principals }
    requires resource { r < length index.now.resources }
    requires asker { IsAsker index.now p asker.now }
    requires keys { AreToldKeys asker.now keys.old }
    requires own { keys.old.principal ≡ p }
    requires derived { IsDerivedAt index.now p r keys.old.derived.items }
    ensures keys { AreToldKeys asker.now keys.new }
    ensures lives { IfOk result (TellsLives index.entry.now p r asker.now) }
{
    lives_with(alloc, index, asker, &mut keys.told, p, r, &keys.derived)
}

/// Keeps derived keys beside others of their principal, where there is memory.
fn put(kept: &mut Vec<Keys>, keys: Keys)
    ensures { (asker : Asker) → AreToldKeys asker keys → All (AreToldKeys asker) kept.old.items
        → All (AreToldKeys asker) kept.new.items }
{
    kept.truncate(staying(kept.as_slice(), keys.principal));
    match kept.push(keys) {
        Ok(()) => (),
        Err(_) => (),
    }
}
