// Who asks for what: for a resource of a world, or for one that it does not name, which is decided as in the world that names it too.
ghost use Rattle.std.specs.Prelude.{◌≡◌, ◌<◌, ◌≤◌, ◌∷◌, [], ℕ, IfOk, List, OnOk, length, map};
ghost use Rattle.iam_decision.specs.Applicable.{ApplicableValue, IsNumbered, frame_of, value_of};
ghost use Rattle.iam_decision.specs.Code.Scan.{placed_value};
ghost use Rattle.iam_decision.specs.Matched.{placed};
ghost use Rattle.iam_layers.specs.Cell.{IsApplicableAt, IsDerivedAt, IsPrincipal, IsResource};
ghost use Rattle.iam_layers.specs.Own.{IsCleanAt, IsOwnContext};
ghost use Rattle.iam_layers.specs.Unnamed.{IsSaid, IsThere};
ghost use Rattle.iam_layers.specs.declared.unnamed.Unnamed.TheVariants.{Of};
ghost use Rattle.iam_open.specs.Code.Tried.{AreKnownAt};
ghost use Rattle.iam_open.specs.InQuestion.{at_moment};
ghost use Rattle.iam_open.specs.Seat.{IsAskedFor, IsSeat};
ghost use Rattle.iam_world.specs.World.{ResourceValue, WorldValue};

use crate::known::Known;
use crate::sure::known_derived;
use iam_context::{Context, ContextFault, Derived, Part};
use iam_decision::{Applicable, Frame, Standing};
use iam_layers::{OutOfMemory, Requester, Unnamed, World};
use std::alloc::Global;

/// What is asked for.
#[derive(Clone, Copy)]
pub enum Target<'a> {
    /// The resource of this number.
    Named(u64),
    /// The resource of this text that the world does not name, of which this is said.
    Unnamed(Unnamed<'a>, &'a str),
}

/// Principal p of a world, and what it asks for. `none` is empty, where no resource of the world gives keys.
#[derive(Clone, Copy)]
pub struct Scene<'a, 's> {
    pub world: &'a World,
    pub p: u64,
    pub target: Target<'s>,
    pub none: &'s Part,
    ghost principal: { p < length world.now.principals },
    ghost there: { IsAskedFor world.now none.now.items target },
}

impl<'a: 's, 's> Scene<'a, 's> {
    /// Principal p asks for resource r, each below the number of its kind.
    pub fn named(world: &'a World, p: u64, r: u64, none: &'s Part) -> Scene<'a, 's>
        requires principal { p < length world.now.principals }
        requires resource { r < length world.now.resources }
        ensures principal { result.p ≡ p }
        ensures seat { IsSeat result.world.now result.target world.entry.now r }
    {
        Scene {
            world,
            p,
            target: Target::Named(r),
            none,
        }
    }

    /// The number of the resource; of one that the world does not name, that behind all others.
    pub fn number(self) -> u64
        ensures { (other : WorldValue) (r : ℕ) → IsSeat self.entry.world.now self.entry.target other r → result ≡ r }
    {
        match self.target {
            Target::Named(r) => r,
            Target::Unnamed(_, _) => self.world.resources(),
        }
    }

    /// Who asks.
    pub fn requester(self) -> &'s Requester
        ensures { (other : WorldValue) (r : ℕ) → IsSeat self.entry.world.now self.entry.target other r
            → IsPrincipal other self.entry.p (λ principal. result.now ≡ principal.requester) }
    {
        self.world.requester(self.p)
    }

    /// The text of the resource.
    pub fn text(self) -> &'s str
        ensures { (other : WorldValue) (r : ℕ) → IsSeat self.entry.world.now self.entry.target other r
            → IsResource other r (λ resource. result.now ≡ resource.arn) }
    {
        match self.target {
            Target::Named(r) => self.world.resource_text(r),
            Target::Unnamed(_, text) => text,
        }
    }

    /// The keys that the resource gives.
    pub fn part(self) -> &'s Part
        ensures { (other : WorldValue) (r : ℕ) → IsSeat self.entry.world.now self.entry.target other r
            → IsResource other r (λ resource. result.now.items ≡ resource.context) }
    {
        match self.target {
            Target::Named(r) => self.world.resource_part(r),
            Target::Unnamed(unnamed, _) => said_part(self.world, unnamed, self.none),
        }
    }

    /// The keys that are known where these are tried, and a moment or none.
    pub fn known(self, own: &'s Part, moment: Option<u64>) -> Known<'s>
        ensures { (other : WorldValue) (r : ℕ) → IsSeat self.entry.world.now self.entry.target other r
            → AreKnownAt other self.entry.p r own.entry.now.items moment result }
    {
        Known {
            world: self.world.world_part(),
            principal: self.world.principal_part(self.p),
            resource: self.part(),
            own,
            derived: known_derived(moment),
        }
    }

    /// The keys that follow from requester, resource and this moment.
    ///
    /// AWS IAM User Guide, "AWS global condition context keys".
    pub fn derived(self, alloc: Global, moment: u64) -> Result<Derived, OutOfMemory>
        requires { moment ≤ 253402300799 }
        ensures { IfOk result (λ derived. (other : WorldValue) (r : ℕ) → IsSeat self.entry.world.now self.entry.target other r
            → IsDerivedAt (at_moment other moment) self.entry.p r derived.items) }
    {
        match self.target {
            Target::Named(r) => self.world.derived_at(alloc, self.p, r, moment),
            Target::Unnamed(unnamed, _) => {
                self.world
                    .unnamed_derived_at(alloc, self.p, unnamed, moment)
            }
        }
    }

    /// The context of a request that gives these keys of its own, with these derived ones: `KeyTwice` where a key of its own stands twice
    /// or in another part, and `DerivedKeyGiven` where one is a derived one.
    ///
    /// AWS IAM User Guide, "AWS global condition context keys".
    pub fn context(
        self,
        alloc: Global,
        own: &'s Part,
        derived: &'s Derived,
    ) -> Result<Context<'s>, ContextFault>
        ensures is { IfOk result (λ context. (other : WorldValue) (r : ℕ) → IsSeat self.entry.world.now self.entry.target other r
            → IsOwnContext other self.entry.p r own.entry.now.items derived.entry.now.items context) }
        ensures clean { IfOk result (λ context. (other : WorldValue) (r : ℕ) → IsSeat self.entry.world.now self.entry.target other r
            → IsCleanAt other self.entry.p r own.entry.now.items) }
    {
        let given = parts(self.world, self.p, self.part(), own);
        Context::join(alloc, &given, derived)
    }

    /// Whether a request may give these keys of its own. The same faults as of [`Scene::context`].
    pub fn check(self, alloc: Global, own: &'s Part) -> Result<(), ContextFault>
        ensures { OnOk result ((other : WorldValue) (r : ℕ) → IsSeat self.entry.world.now self.entry.target other r
            → IsCleanAt other self.entry.p r own.entry.now.items) }
    {
        let derived = Vec::new(alloc);
        self.context(alloc, own, &derived)?;
        Ok(())
    }

    /// The policies that apply.
    ///
    /// AWS IAM User Guide, "Policy evaluation logic".
    pub fn applicable(self) -> Applicable<'a>
        ensures value { (other : WorldValue) (r : ℕ) → IsSeat self.entry.world.now self.entry.target other r
            → IsApplicableAt other self.entry.p r (value_of result) }
        ensures numbered { IsNumbered (value_of result) }
    {
        match self.target {
            Target::Named(r) => self.world.applicable(self.p, r),
            Target::Unnamed(unnamed, _) => self.world.unnamed_applicable(self.p, unnamed),
        }
    }

    /// What a decision asks beside the statements.
    pub fn frame(self) -> Frame
        ensures { (other : WorldValue) (r : ℕ) (a : ApplicableValue) → IsSeat self.entry.world.now self.entry.target other r
            → IsApplicableAt other self.entry.p r a → result ≡ frame_of a }
    {
        self.applicable().frame()
    }

    /// All statements that apply, in place order.
    pub fn statements(self, alloc: Global) -> Result<Vec<Standing<'a>>, OutOfMemory>
        ensures { IfOk result (λ statements. (other : WorldValue) (r : ℕ) (a : ApplicableValue)
            → IsSeat self.entry.world.now self.entry.target other r → IsApplicableAt other self.entry.p r a
            → map placed_value statements.items ≡ placed a) }
    {
        self.applicable().statements(alloc)
    }
}

/// The parts of the context of a request of principal p, which has to be below `principals()`: the keys of the world, of the principal and of
/// a resource, and its own.
fn parts<'s>(world: &'s World, p: u64, part: &'s Part, own: &'s Part) -> [&'s Part; 4]
    requires { p < length world.now.principals }
    ensures { IsPrincipal world.entry.now p (λ principal. map (λ part. part.now.items) result
        ≡ world.entry.now.context ∷ (principal.context ∷ (part.entry.now.items ∷ (own.entry.now.items ∷ [])))) }
{
    [world.world_part(), world.principal_part(p), part, own]
}

/// The keys that a resource gives of which this is said: those of the one that it is like, or none.
fn said_part<'s>(world: &'s World, unnamed: Unnamed<'_>, none: &'s Part) -> &'s Part
    requires there { IsThere world.now unnamed }
    requires empty { (account : _) → unnamed ≡ Of account → length none.now.items ≡ 0 }
    ensures { (text : List ℕ) (resource : ResourceValue) → IsSaid world.entry.now unnamed.entry text resource → result.now.items ≡ resource.context }
{
    match unnamed {
        Unnamed::Like(r) => world.resource_part(r),
        Unnamed::Of(_) => none,
    }
}
