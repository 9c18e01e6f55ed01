// The derived keys that were made last, which further resources of their accounts may share.
ghost use Rattle.std.specs.Prelude.{◌≡◌, ◌<◌, ℕ, All, IfOk, IfSome, length};
ghost use Rattle.iam_context.specs.Context.{ContextValue};
ghost use Rattle.iam_match.specs.Request.{access_of};
ghost use Rattle.iam_decision.specs.Applicable.{ApplicableValue};
ghost use Rattle.iam_layers.specs.Cell.{IsAccessAt, IsApplicableAt, IsContextAt, IsDerivedAt, IsSharedAt};
ghost use Rattle.iam_world.specs.World.{WorldValue};
ghost use Rattle.iam_living.specs.Asker.{AreTold, IsAsker};
ghost use Rattle.iam_living.specs.Keys.{AreKeys, HasKeys, IsReady, TellsLives};

use crate::asker::{Asker, Bits};
use crate::lists::ListWords;
use crate::marks::ListingMarks;
use crate::walk::{add_all, living};
use iam_context::{Context, Derived};
use iam_index::Index;
use iam_layers::{Shared, World};
use iam_match::Access;
use iam_text::OutOfMemory;
use std::alloc::Global;

/// Derived keys are kept for at most so many accounts of resources.
const MOST: usize = 8;

/// Derived keys of the requests of a principal for a resource.
#[derive(Drop)]
pub struct Keys {
    pub principal: u64,
    pub resource: u64,
    pub derived: Derived,
    pub told: Told,
}

/// What is told by derived keys, of the statements of a listing and of lists.
#[derive(Drop)]
pub struct Told {
    pub listing: ListingMarks,
    pub lists: ListWords,
}

/// Derived keys that are kept, by their number, or that there was no memory to keep.
#[derive(Drop)]
pub enum Ready {
    Kept(usize),
    Made(Derived),
}

/// What is found of the statements that live in the requests of a principal for a resource.
#[derive(Drop)]
pub enum Lives<'a> {
    /// Those of these bits.
    Words(Bits),
    /// What the requests share, where a word has no bits for them.
    Shared(Shared<'a>),
}

/// No derived keys yet.
pub fn no_keys(alloc: Global) -> Vec<Keys>
    ensures { (world : WorldValue) → All (AreKeys world) result.items }
{
    Vec::new(alloc)
}

/// What the requests of principal p for resource r share. Kept derived keys of the principal serve again for resources of the
/// same account.
pub fn shared_by<'a>(
    alloc: Global,
    index: &'a Index<'a>,
    kept: &mut Vec<Keys>,
    p: u64,
    r: u64,
) -> Result<Shared<'a>, OutOfMemory>
    requires principal { p < length index.now.principals }
    requires resource { r < length index.now.resources }
    requires keys { All (AreKeys index.now) kept.old.items }
    ensures keys { All (AreKeys index.entry.now) kept.new.items }
    ensures shared { IfOk result (IsSharedAt index.entry.now p r) }
{
    let ready = make_ready(alloc, index.world(), kept, p, r)?;
    shared_with(alloc, index, p, r, keys_of(&ready, kept.as_slice()))
}

/// The derived keys of principal p's requests for resource r: where they are not found among those that are kept, they are made, and
/// kept beside others of the principal.
fn make_ready(
    alloc: Global,
    world: &World,
    kept: &mut Vec<Keys>,
    p: u64,
    r: u64,
) -> Result<Ready, OutOfMemory>
    requires principal { p < length world.now.principals }
    requires resource { r < length world.now.resources }
    requires keys { All (AreKeys world.now) kept.old.items }
    ensures keys { All (AreKeys world.now) kept.new.items }
    ensures ready { IfOk result (IsReady world.now p r kept.new.items) }
{
    if let Some(n) = known(world, kept.as_slice(), p, r) {
        return Ok(Ready::Kept(n));
    }
    let derived = world.derived(alloc, p, r)?;
    kept.truncate(staying(kept.as_slice(), p));
    match kept.reserve(1) {
        Ok(()) => (),
        Err(_) => return Ok(Ready::Made(derived)),
    }
    let n = kept.len();
    kept.push(Keys {
        principal: p,
        resource: r,
        derived,
        told: nothing_told(alloc),
    })?;
    Ok(Ready::Kept(n))
}

/// Nothing, ever.
fn nothing_told(alloc: Global) -> Told {
    Told {
        listing: ListingMarks {
            org: Vec::new(alloc),
            own: Vec::new(alloc),
        },
        lists: Vec::new(alloc),
    }
}

/// The derived keys.
fn keys_of<'k>(ready: &'k Ready, kept: &'k [Keys]) -> &'k Derived
    requires { (world : WorldValue) × (p : ℕ) × (r : ℕ) × IsReady world p r kept.now ready.now }
    ensures { (world : WorldValue) (p r : ℕ) → IsReady world p r kept.now ready.now → IsDerivedAt world p r result.now.items }
{
    match ready {
        Ready::Kept(n) => &kept[*n].derived,
        Ready::Made(derived) => derived,
    }
}

/// What the requests of principal p for resource r share, where these derived keys complete their context: found among the
/// statements that the index lists.
fn shared_with<'a: 'c, 'c>(
    alloc: Global,
    index: &'a Index<'a>,
    p: u64,
    r: u64,
    derived: &'c Derived,
) -> Result<Shared<'a>, OutOfMemory>
    requires principal { p < length index.now.principals }
    requires resource { r < length index.now.resources }
    requires derived { IsDerivedAt index.now p r derived.now.items }
    ensures { IfOk result (IsSharedAt index.entry.now p r) }
{
    let world = index.world();
    let context = index.parts().context(p, r, derived);
    let access = world.access(p, r, &context);
    let living = living(alloc, index, p, r, access)?;
    Ok(Shared::of(index.frame(p, r), living))
}

/// Who asks for what where principal p asks for resource r, in this context, which is the one that is given.
fn access_in<'a, 'c>(world: &'a World, p: u64, r: u64, context: &'a Context<'c>) -> Access<'a, 'c>
    requires principal { p < length world.now.principals }
    requires resource { r < length world.now.resources }
    ensures context { result.context.now ≡ context.entry.now }
    ensures access { (derived : ContextValue) (applicable : ApplicableValue) → IsDerivedAt world.entry.now p r derived
        → IsContextAt world.entry.now p r derived context.entry.now → IsApplicableAt world.entry.now p r applicable
        → IsAccessAt world.entry.now p r applicable (access_of result) }
{
    Access {
        requester: world.requester(p),
        resource: world.resource_text(r),
        context,
    }
}

/// Which statements live in the requests of an asker, principal p, for resource r, where these derived keys complete their context.
pub fn lives_with<'a: 'c, 'c>(
    alloc: Global,
    index: &'a Index<'a>,
    asker: &Asker<'a>,
    told: &mut Told,
    p: u64,
    r: u64,
    derived: &'c Derived,
) -> Result<Lives<'a>, OutOfMemory>
    requires principal { p < length index.now.principals }
    requires resource { r < length index.now.resources }
    requires asker { IsAsker index.now p asker.now }
    requires derived { IsDerivedAt index.now p r derived.now.items }
    requires told { AreTold asker.now p derived.now.items told.old }
    ensures told { AreTold asker.now p derived.entry.now.items told.new }
    ensures lives { IfOk result (TellsLives index.entry.now p r asker.now) }
{
    let context = index.parts().context(p, r, derived);
    let access = access_in(index.world(), p, r, &context);
    if let Some(bits) = asker.bits(alloc, index, told, r, access)? {
        return Ok(Lives::Words(bits));
    }
    let mut found = Vec::new(alloc);
    add_all(alloc, &mut found, index.resource_statements(r), access)?;
    let living = asker
        .listing
        .living_around(alloc, &mut told.listing, r, access, found)?;
    Ok(Lives::Shared(Shared::of(index.frame(p, r), living)))
}

/// The number of derived keys of principal p's requests for resource r, where some are found among these.
pub fn known(world: &World, kept: &[Keys], p: u64, r: u64) -> Option<usize>
    requires resource { r < length world.now.resources }
    requires keys { All (AreKeys world.now) kept.now }
    ensures { IfSome result (HasKeys world.now p r kept.now) }
{
    for i in 0..kept.len() {
        let keys = &kept[i];
        if keys.principal == p && world.has_same_derived(keys.resource, r) {
            return Some(i);
        }
    }
    None
}

/// How many of these stay where derived keys of this principal come: all, or none where they are another's or as many as may be
/// kept.
pub fn staying(kept: &[Keys], p: u64) -> usize
    ensures { length kept.now < 8 → All (λ keys. keys.principal ≡ p) kept.now → result ≡ length kept.now }
{
    match kept.first() {
        Some(keys) if keys.principal == p && kept.len() < MOST => kept.len(),
        _ => 0,
    }
}
