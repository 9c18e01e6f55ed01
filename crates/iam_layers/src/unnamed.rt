// Resources that a world does not name.
ghost use Rattle.std.specs.Prelude.{◌≡◌, ◌<◌, ◌≤◌, [], ℕ, IfOk, List, length};
ghost use Rattle.iam_context.specs.Context.{ContextValue};
ghost use Rattle.iam_decision.specs.Applicable.{ApplicableValue, IsNumbered, value_of};
ghost use Rattle.iam_match.specs.Request.{access_of};
ghost use Rattle.iam_layers.specs.Unnamed.{AreUnnamedKeys, AreUnnamedPolicies, IsThere, IsUnnamedAccess, IsUnnamedContext};

use crate::world::World;
use iam_context::{Context, Derived, Part};
use iam_decision::Applicable;
use iam_match::{Access, OutOfMemory};
use std::alloc::Global;

/// What is said of resources that a world does not name.
#[derive(Clone, Copy, Debug)]
pub enum Unnamed<'a> {
    /// All that the world says of this resource, but for its text.
    Like(u64),
    /// That they are of the account with this id, and nothing else.
    Of(&'a str),
}

impl World {
    /// The policies that apply where principal p asks for such a resource; p, and the number of a resource, are below that of their kind.
    ///
    /// AWS IAM User Guide, "Policy evaluation logic".
    pub fn unnamed_applicable(&self, p: u64, unnamed: Unnamed<'_>) -> Applicable<'_>
        requires principal { p < length self.now.principals }
        requires there { IsThere self.now unnamed }
        ensures value { AreUnnamedPolicies self.now p unnamed.entry (value_of result) }
        ensures numbered { IsNumbered (value_of result) }
    {
        match unnamed {
            Unnamed::Like(r) => self.applicable(p, r),
            Unnamed::Of(account) => self.applicable_alone(p, account),
        }
    }

    /// The keys that follow where principal p asks for such a resource, from both and the moment.
    ///
    /// AWS IAM User Guide, "AWS global condition context keys".
    pub fn unnamed_derived(
        &self,
        alloc: Global,
        p: u64,
        unnamed: Unnamed<'_>,
    ) -> Result<Derived, OutOfMemory>
        requires principal { p < length self.now.principals }
        requires there { IsThere self.now unnamed }
        ensures { IfOk result (λ derived. AreUnnamedKeys self.now p unnamed.entry derived.items) }
    {
        match unnamed {
            Unnamed::Like(r) => self.derived(alloc, p, r),
            Unnamed::Of(account) => self.derived_in(alloc, p, account),
        }
    }

    /// The same at this moment in place of the world's, in seconds from 1970-01-01T00:00:00Z and at most 253,402,300,799.
    ///
    /// AWS IAM User Guide, "AWS global condition context keys".
    pub fn unnamed_derived_at(
        &self,
        alloc: Global,
        p: u64,
        unnamed: Unnamed<'_>,
        moment: u64,
    ) -> Result<Derived, OutOfMemory>
        requires principal { p < length self.now.principals }
        requires there { IsThere self.now unnamed }
        requires moment { moment ≤ 253402300799 }
        ensures { IfOk result (λ derived. AreUnnamedKeys (record self.now { moment = moment }) p unnamed.entry derived.items) }
    {
        match unnamed {
            Unnamed::Like(r) => self.derived_at(alloc, p, r, moment),
            Unnamed::Of(account) => self.derived_in_at(alloc, p, account, moment),
        }
    }

    /// The context where principal p asks for such a resource: the keys that the world and the principal give, those of the resource
    /// that it is like, or `none`, which is empty, and these derived ones, which have to be those of p and such a resource.
    ///
    /// AWS IAM User Guide, "AWS global condition context keys".
    pub fn unnamed_context<'a>(
        &'a self,
        alloc: Global,
        p: u64,
        unnamed: Unnamed<'_>,
        none: &'a Part,
        derived: &'a Derived,
    ) -> Result<Context<'a>, OutOfMemory>
        requires principal { p < length self.now.principals }
        requires there { IsThere self.now unnamed }
        requires none { none.now.items ≡ [] }
        ensures { IfOk result (IsUnnamedContext self.entry.now p unnamed.entry derived.entry.now.items) }
    {
        let keys = match unnamed {
            Unnamed::Like(r) => self.resource_part(r),
            Unnamed::Of(_) => none,
        };
        Context::of(
            alloc,
            [self.world_part(), self.principal_part(p), keys],
            derived,
        )
    }

    /// Who asks for what where principal p asks for the resource of this text, in this context, which has to be that of such a request.
    pub fn unnamed_access<'a, 'c>(
        &'a self,
        p: u64,
        unnamed: Unnamed<'_>,
        text: &'a str,
        context: &'a Context<'c>,
    ) -> Access<'a, 'c>
        requires principal { p < length self.now.principals }
        requires there { IsThere self.now unnamed }
        requires context { (derived : ContextValue) × AreUnnamedKeys self.now p unnamed derived × IsUnnamedContext self.now p unnamed derived context.now }
        ensures { (action : List ℕ) (applicable : ApplicableValue) → AreUnnamedPolicies self.entry.now p unnamed.entry applicable
            → IsUnnamedAccess self.entry.now p unnamed.entry action text.entry.now applicable (access_of result) }
    {
        Access {
            requester: self.requester(p),
            resource: text,
            context,
        }
    }
}
