// Pairs that are kept from request to request. Where one stands is a guess: it is that of a principal and a resource only where it says so.
// Tiles come in no order of principals (LOGIC 11.7), so those of all principals are kept.
ghost use Rattle.std.specs.Prelude.{◌≡◌, ◌↔◌, ◌<◌, All, Contains, IfOk, IfSome, IsTrue, List, None, [], ◌∷◌, length};
ghost use Rattle.iam_open.specs.Code.Pairs.{AreKept, IsKept, IsPairAt};
ghost use Rattle.iam_open.specs.InQuestion.{IsAlways, IsNever};
ghost use Rattle.iam_open.specs.Turned.{IsShown};
ghost use Rattle.iam_world.specs.World.{WorldValue};

use crate::certain::Certain;
use crate::example::{Example, example_of};
use crate::finds::{Again, Finds, acting_on};
use crate::pair::{Pair, pair_certain, plain_pair};
use crate::scene::Scene;
use crate::seek::example;
use iam_layers::{OutOfMemory, World};
use std::alloc::Global;

/// So many statements of pairs are kept at most by all workers together, some 32 MB.
pub const ROOM: u64 = 800_000;

/// What a search found takes the room of so many statements.
const FIND: u64 = 8;

/// Stands for no place.
const NO_PLACE: u32 = u32::MAX;

/// Pairs, each of another principal or resource.
#[derive(Drop)]
pub struct Kept<'a> {
    pub pairs: Vec<Pair<'a>>,
    // The place of the pair of each principal and resource, `NO_PLACE` where there is none.
    places: Vec<u32>,
    resources: u64,
    finds: Finds,
    // How many statements they have, where each counts for some more, and may have.
    held: u64,
    room: u64,
}

impl<'a> Kept<'a> {
    /// None yet, where there are so many resources, and room for those of so many statements.
    pub fn new(alloc: Global, resources: u64, room: u64) -> Kept<'a>
        ensures { (world : WorldValue) → AreKept world result }
    {
        Kept {
            pairs: Vec::new(alloc),
            places: Vec::new(alloc),
            resources,
            finds: Finds::new(alloc, room / FIND),
            held: 0,
            room,
        }
    }

    /// As [`crate::certainly`], by the pair that is kept, or else by one that is made.
    pub fn certainly(
        &mut self,
        alloc: Global,
        world: &'a World,
        p: u64,
        a: u64,
        r: u64,
    ) -> Result<Certain, OutOfMemory>
        requires principal { p < length world.now.principals }
        requires action { a < length world.now.actions }
        requires resource { r < length world.now.resources }
        requires kept { AreKept world.now self.old }
        ensures always { (worlds : List WorldValue) → Contains worlds world.entry.now → IfOk result (λ certain. certain ≡ Certain.Always → IsAlways worlds world.entry.now p a r) }
        ensures never { (worlds : List WorldValue) → Contains worlds world.entry.now → IfOk result (λ certain. certain ≡ Certain.Never → IsNever worlds world.entry.now p a r) }
        ensures kept { AreKept world.entry.now self.new }
    {
        if let Some(pair) = self.of(p, r) {
            return pair_certain(alloc, pair, world.action_text(a));
        }
        let none = Vec::new(alloc);
        let pair = plain_pair(alloc, Scene::named(world, p, r, &none))?;
        let certain = pair_certain(alloc, &pair, world.action_text(a))?;
        self.keep(pair);
        Ok(certain)
    }

    /// The pair of principal p and resource r, if it is kept.
    fn of(&self, p: u64, r: u64) -> Option<&Pair<'a>>
        ensures { IfSome result (λ pair. (world : WorldValue) → AreKept world self.now → IsPairAt world p r [] None pair.now) }
    {
        let Some(pair) = self.pairs.get(self.place(p, r)) else {
            return None;
        };
        if is_of(pair, p, r) {
            return Some(pair);
        }
        None
    }

    /// As [`crate::seek::example`]: what was found where the same statements act is tried first, and settles it where it was sought.
    pub fn example(
        &mut self,
        alloc: Global,
        world: &'a World,
        p: u64,
        a: u64,
        r: u64,
    ) -> Result<Option<Example>, OutOfMemory>
        requires principal { p < length world.now.principals }
        requires action { a < length world.now.actions }
        requires resource { r < length world.now.resources }
        requires kept { AreKept world.now self.old }
        ensures shown { IfOk result (λ found. IfSome found (IsShown (world.entry.now ∷ []) world.entry.now p a r)) }
        ensures kept { AreKept world.entry.now self.new }
    {
        let none = Vec::new(alloc);
        let scene = Scene::named(world, p, r, &none);
        let action = world.action_text(a);
        match self.again(alloc, p, r, action)? {
            Again::Nothing => return Ok(None),
            Again::Found(own, moment) => return example_of(alloc, scene, action, own, moment),
            Again::Unknown => {}
        }
        let found = example(alloc, scene, action)?;
        self.keep_found(alloc, p, r, action, &found);
        Ok(found)
    }

    /// What was found for an action on which the same statements act.
    fn again(&self, alloc: Global, p: u64, r: u64, action: &str) -> Result<Again, OutOfMemory> {
        match self.acting(p, r, action) {
            Some(acting) => self.finds.again(alloc, self.place(p, r), p, r, acting),
            None => Ok(Again::Unknown),
        }
    }

    /// Keeps what was found for an action.
    fn keep_found(&mut self, alloc: Global, p: u64, r: u64, action: &str, found: &Option<Example>)
        ensures { self.new.pairs.items ≡ self.old.pairs.items }
    {
        let place = self.place(p, r);
        let Some(acting) = self.acting(p, r, action) else {
            return;
        };
        // Where there is no memory it is not kept.
        let _ = self.finds.keep(alloc, place, p, r, acting, found);
    }

    /// Which of the statements of a pair that is kept act on an action.
    fn acting(&self, p: u64, r: u64, action: &str) -> Option<u64> {
        match self.of(p, r) {
            Some(pair) => acting_on(pair, action),
            None => None,
        }
    }

    /// Where the place of the pair of principal p and resource r is noted.
    fn spot(&self, p: u64, r: u64) -> u64 {
        p.saturating_mul(self.resources).saturating_add(r) % ROOM
    }

    /// The place of this pair; where there is none, behind all.
    fn place(&self, p: u64, r: u64) -> usize {
        match self.places.get(self.spot(p, r) as usize) {
            Some(place) => *place as usize,
            None => NO_PLACE as usize,
        }
    }

    /// Keeps a pair, where there is room for it.
    fn keep(&mut self, pair: Pair<'a>)
        ensures { (world : WorldValue) → AreKept world self.old → IsKept world pair.entry → AreKept world self.new }
    {
        let spot = self.spot(pair.principal, pair.resource);
        let place = self
            .place(pair.principal, pair.resource)
            .min(self.pairs.len());
        let held = self.held_with(place, &pair);
        if held > self.room {
            return;
        }
        if !note(&mut self.places, spot, place) {
            return;
        }
        self.held = held;
        put(&mut self.pairs, place, pair);
    }

    /// How many statements are held where a pair has this place.
    fn held_with(&self, place: usize, pair: &Pair<'a>) -> u64 {
        let gone = match self.pairs.get(place) {
            Some(old) => size(old),
            None => 0,
        };
        self.held.saturating_sub(gone).saturating_add(size(pair))
    }
}

/// Whether this is the pair of principal p and resource r.
fn is_of(pair: &Pair<'_>, p: u64, r: u64) -> bool
    ensures { IsTrue result ↔ ((pair.now.principal ≡ p) × (pair.now.resource ≡ r)) }
{
    pair.principal == p && pair.resource == r
}

/// So many statements have the room that a pair takes.
fn size(pair: &Pair<'_>) -> u64 {
    (pair.chances.len() as u64).saturating_add(2)
}

/// Notes the place of a pair, if it can be noted.
fn note(places: &mut Vec<u32>, spot: u64, place: usize) -> bool {
    if spot >= ROOM || place >= NO_PLACE as usize {
        return false;
    }
    let at = spot as usize;
    if at >= places.len() && places.resize(at + 1, NO_PLACE).is_err() {
        return false;
    }
    match places.get_mut(at) {
        Some(it) => {
            *it = place as u32;
            true
        }
        None => false,
    }
}

/// Puts a pair in a place, or behind the others.
fn put<'a>(pairs: &mut Vec<Pair<'a>>, place: usize, pair: Pair<'a>)
    ensures { (world : WorldValue) → All (IsKept world) pairs.old.items → IsKept world pair.entry → All (IsKept world) pairs.new.items }
{
    if place < pairs.len() {
        pairs[place] = pair;
        return;
    }
    // Where there is no memory it is not kept.
    let _ = pairs.push(pair);
}
