// The requests that are asked of a world, as they are kept.
ghost use Rattle.std.specs.Prelude.{◌≡◌, ◌≢◌, ◌≤◌, ◌<◌, ◌∷◌, ◌++◌, [], IfErr, MatchOption, OnErr, OnOk, length};
ghost use Rattle.iam_layers.specs.Own.{IsCleanAt};
ghost use Rattle.iam_asked.specs.Code.Reading.{AreKept, requests_of};
ghost use Rattle.iam_asked.specs.Request.{IsAsked, IsWithin, RequestsValue, asked_with, with_asked};
ghost use Rattle.iam_asked.specs.Size.{AreLarge, AreSmall};
ghost use Rattle.iam_asked.specs.declared.fault.LineFault.TheVariants as l;

use crate::asked::Asked;
use crate::entry::Entry;
use crate::fault::LineFault;
use crate::own::{Own, behind_own};
use iam_context::Part;
use iam_layers::World;
use iam_text::OutOfMemory;
use indexmap::IndexSet;
use std::alloc::Global;
use std::marker::Model;

/// How many requests there may be.
pub const MOST_REQUESTS: u64 = 16_777_216;

/// How large the contexts that are kept may be.
const MOST_SIZE: u64 = 67_108_864;

/// The requests that are asked of a world, in order, at most 16,777,216. The keys that several of them give are kept once. A contract
/// sees the world and the requests.
#[derive(Drop)]
pub struct Requests<'a> {
    world: &'a World,
    entries: Vec<Entry>,
    contexts: IndexSet<Own>,
    // How large the contexts are.
    size: u64,
}

impl<'a> Model for Requests<'a> {
    ghost Value = { RequestsValue };

    ghost view = { λ requests. requests_of requests.world.now requests.entries.items requests.contexts.keys };

    ghost invariant = { λ requests.
        AreKept requests.world.now requests.entries.items requests.contexts.keys requests.size };
}

/// An entry with these numbers, each below that of its kind.
fn entry_of(world: &World, asked: Asked, context: u32) -> Entry
    requires principal { asked.principal < length world.now.principals }
    requires action { asked.action < length world.now.actions }
    requires resource { asked.resource < length world.now.resources }
    ensures { result ≡ record { principal = asked.principal; action = asked.action; resource = asked.resource; context = context } }
{
    // There are at most 16,777,216 cells, so at most as many of each kind.
    let _cells = world.cells();
    Entry {
        principal: asked.principal as u32,
        action: asked.action as u32,
        resource: asked.resource as u32,
        context,
    }
}

impl<'a> Requests<'a> {
    /// No requests.
    pub(crate) fn new(alloc: Global, world: &'a World) -> Requests<'a>
        ensures { result ≡ record { world = world.entry.now; asked = [] } }
    {
        Requests {
            world,
            entries: Vec::new(alloc),
            contexts: IndexSet::new(alloc),
            size: 0,
        }
    }

    /// The world.
    pub fn world(&self) -> &'a World
        ensures { result.now ≡ self.now.world }
    {
        self.world
    }

    /// How many there are, at most 16,777,216, whose keys are not too large.
    pub fn count(&self) -> u64
        ensures value { result ≡ length self.now.asked }
        ensures few { result ≤ 16777216 }
        ensures small { AreSmall self.now.asked }
    {
        self.entries.len() as u64
    }

    /// The principal, the action and the resource of request n.
    pub fn at(&self, n: u64) -> Asked
        requires { n < length self.now.asked }
        ensures is { IsAsked self.now n (λ asked. asked ≡ asked_with result asked.own) }
        ensures principal { result.principal < length self.now.world.principals }
        ensures action { result.action < length self.now.world.actions }
        ensures resource { result.resource < length self.now.world.resources }
    {
        let entry = self.entries[n as usize];
        Asked {
            principal: entry.principal as u64,
            action: entry.action as u64,
            resource: entry.resource as u64,
        }
    }

    /// The keys that request n gives itself; `None` where it gives none.
    pub fn own(&self, n: u64) -> Option<&Part>
        requires { n < length self.now.asked }
        ensures { IsAsked self.now n (λ asked. MatchOption result (asked.own ≡ [])
            (λ own. (own.now.items ≡ asked.own) × IsCleanAt self.now.world asked.principal asked.resource asked.own)) }
    {
        let entry = self.entries[n as usize];
        if entry.context == 0 {
            return None;
        }
        let own = self.contexts.get_index(entry.context as usize - 1)?;
        Some(own.part())
    }

    /// Adds a request that gives no keys.
    pub(crate) fn add(&mut self, asked: Asked) -> Result<(), OutOfMemory>
        requires within { IsWithin self.old.world (asked_with asked []) }
        requires few { length self.old.asked < 16777216 }
        ensures ok { OnOk result (self.new ≡ with_asked self.old (asked_with asked [])) }
        ensures same { OnErr result (self.new ≡ self.old) }
    {
        let entry = entry_of(self.world, asked, 0);
        self.entries.push(entry)?;
        Ok(())
    }

    /// Adds a request that gives these keys, one at least, which are kept once. `ContextsTooLarge` where those that are kept become too
    /// large with them.
    pub(crate) fn add_with(&mut self, asked: Asked, own: Own) -> Result<(), LineFault>
        requires within { IsWithin self.old.world (asked_with asked own) }
        requires some { 0 < length own }
        requires few { length self.old.asked < 16777216 }
        ensures ok { OnOk result (self.new ≡ with_asked self.old (asked_with asked own)) }
        ensures fault { IfErr result (λ fault. fault ≢ l.OutOfMemory
            → (fault ≡ l.ContextsTooLarge) × AreLarge (self.old.asked ++ asked_with asked own ∷ [])) }
        ensures same { OnErr result (self.new ≡ self.old) }
    {
        if let Some(number) = self.contexts.get_index_of(&own) {
            let entry = entry_of(self.world, asked, number as u32 + 1);
            self.entries.push(entry)?;
            return Ok(());
        }
        let Some(left) = behind_own(&own, MOST_SIZE - self.size) else {
            return Err(LineFault::ContextsTooLarge);
        };
        let entry = entry_of(self.world, asked, self.contexts.len() as u32 + 1);
        self.entries.reserve(1)?;
        self.contexts.insert(own)?;
        self.entries.push_reserved(entry);
        self.size = MOST_SIZE - left;
        Ok(())
    }
}
