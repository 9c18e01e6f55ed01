// The engine as its callers see it.
ghost use Rattle.std.specs.Prelude.{◌≡◌, ◌<◌, ◌≤◌, IfOk, length};
ghost use Rattle.iam_world.specs.World.{WorldValue};
ghost use Rattle.iam_layers.specs.Cell.{IsDecisionOf, IsVerdictOf};
ghost use Rattle.iam_layers.specs.Own.{IsCleanAt, IsOwnDecision, IsOwnVerdict};

use crate::cache::MatchCache;
use crate::own::own_context;
use crate::walk::{decision, verdict};
use iam_context::Part;
use iam_decision::Findings;
use iam_index::{Index, Texts};
use iam_layers::{Decision, Verdict, World};
use iam_text::OutOfMemory;
use std::alloc::Global;
use std::marker::Model;

/// Decides requests of a world one at a time, in any order: of each it looks at its candidates alone, and leaves untested what no
/// longer matters. Which texts match which resources is remembered in one bounded cache. A contract sees the world.
#[derive(Drop)]
pub struct Engine<'a> {
    index: &'a Index<'a>,
    cache: MatchCache<'a>,
    // Room for the statements that match a request.
    findings: Findings,
}

impl<'a> Model for Engine<'a> {
    ghost Value = { WorldValue };

    ghost view = { λ engine. engine.index.now };

    ghost invariant = { λ engine. engine.cache ≡ engine.index.now };
}

impl<'a> Engine<'a> {
    ghost use Rattle.iam_world.specs.World.{world_cells};

    /// An engine of a world, by an index of it, whose cache holds so many entries: 1 to 65,536.
    pub fn new(
        alloc: Global,
        world: &'a World,
        index: &'a Index<'a>,
        capacity: usize,
    ) -> Result<Engine<'a>, OutOfMemory>
        requires same { index.now ≡ world.now }
        requires some { 1 ≤ capacity }
        requires few { capacity ≤ 65536 }
        ensures { IfOk result (λ engine. engine ≡ world.entry.now) }
    {
        let cache = MatchCache::new(alloc, world, Texts::of(alloc, index), capacity)?;
        Ok(Engine {
            index,
            cache,
            findings: Findings::new(alloc),
        })
    }

    /// The world whose cells it decides.
    pub fn world(&self) -> &'a World
        ensures { result.now ≡ self.now }
    {
        self.index.world()
    }

    /// The verdict on the request of a cell, which has to be below `cells()` of the world, whatever was asked before. All denies
    /// are tested, and allows until a deny matches. After a refusal the engine is as usable as before.
    ///
    /// AWS IAM User Guide, "Policy evaluation logic".
    pub fn decide(&mut self, alloc: Global, cell: u64) -> Result<Verdict, OutOfMemory>
        requires { cell < world_cells self.old }
        ensures verdict { IfOk result (IsVerdictOf self.old cell) }
        ensures same { self.new ≡ self.old }
    {
        let index = self.index;
        let world = index.world();
        let (p, a, r) = world.triple(cell);
        let derived = world.derived(alloc, p, r)?;
        let context = index.parts().context(p, r, &derived);
        let access = world.access(p, r, &context);
        verdict(
            alloc,
            index,
            &mut self.cache,
            &mut self.findings,
            access,
            p,
            a,
            r,
        )
    }

    /// The decision on the request of a cell, as [`Engine::decide`] gives it, and sooner: it stops at the first deny that matches,
    /// and tests an allow only while its check is open.
    pub fn decide_brief(&mut self, alloc: Global, cell: u64) -> Result<Decision, OutOfMemory>
        requires { cell < world_cells self.old }
        ensures decision { IfOk result (IsDecisionOf self.old cell) }
        ensures same { self.new ≡ self.old }
    {
        let index = self.index;
        let world = index.world();
        let (p, a, r) = world.triple(cell);
        let derived = world.derived(alloc, p, r)?;
        let context = index.parts().context(p, r, &derived);
        let access = world.access(p, r, &context);
        decision(
            alloc,
            index,
            &mut self.cache,
            &mut self.findings,
            access,
            p,
            a,
            r,
        )
    }

    /// The verdict on the request of principal p for action a on resource r, each below the number of its kind, that gives these keys
    /// of its own, which have to be clean beside the others (`World::check_own`). As [`Engine::decide`] in all else.
    pub fn decide_own(
        &mut self,
        alloc: Global,
        p: u64,
        a: u64,
        r: u64,
        own: &Part,
    ) -> Result<Verdict, OutOfMemory>
        requires principal { p < length self.old.principals }
        requires action { a < length self.old.actions }
        requires resource { r < length self.old.resources }
        requires clean { IsCleanAt self.old p r own.now.items }
        ensures verdict { IfOk result (IsOwnVerdict self.old p a r own.now.items) }
        ensures same { self.new ≡ self.old }
    {
        let index = self.index;
        let world = index.world();
        let derived = world.derived(alloc, p, r)?;
        let context = own_context(alloc, world, p, r, own, &derived)?;
        let access = world.own_access(p, r, own, &derived, &context);
        verdict(
            alloc,
            index,
            &mut self.cache,
            &mut self.findings,
            access,
            p,
            a,
            r,
        )
    }

    /// The decision on such a request, as [`Engine::decide_own`] gives it, and sooner, as [`Engine::decide_brief`].
    pub fn decide_own_brief(
        &mut self,
        alloc: Global,
        p: u64,
        a: u64,
        r: u64,
        own: &Part,
    ) -> Result<Decision, OutOfMemory>
        requires principal { p < length self.old.principals }
        requires action { a < length self.old.actions }
        requires resource { r < length self.old.resources }
        requires clean { IsCleanAt self.old p r own.now.items }
        ensures decision { IfOk result (IsOwnDecision self.old p a r own.now.items) }
        ensures same { self.new ≡ self.old }
    {
        let index = self.index;
        let world = index.world();
        let derived = world.derived(alloc, p, r)?;
        let context = own_context(alloc, world, p, r, own, &derived)?;
        let access = world.own_access(p, r, own, &derived, &context);
        decision(
            alloc,
            index,
            &mut self.cache,
            &mut self.findings,
            access,
            p,
            a,
            r,
        )
    }
}
