// A world: what it has, which policies apply to a request, and the verdict on it.
ghost use Rattle.std.specs.Prelude.{◌≡◌, ◌≢◌, ◌↔◌, ◌<◌, ◌≤◌, IsTrue, ℕ, IfOk, IfErr, Some, length, pos, string_bytes};
ghost use Rattle.iam_value.specs.Moment.{IsStamp};
ghost use Rattle.iam_decision.specs.Applicable.{IsNumbered, value_of, ApplicableValue, frame_of};
ghost use Rattle.iam_world.specs.World.{WorldValue};
ghost use Rattle.iam_layers.specs.Code.Statements.{IsBare, AreSameButPolicy, HasLevels, HaveSameOrg};

use crate::applicable::{control_of, org_of};
use crate::derived::{keys_with, stamp_of};
use iam_context::{Context, Derived, Part, Sought};
use iam_decision::{Applicable, Frame, Shared, Verdict};
use iam_match::{Access, OutOfMemory, Requester};
use iam_world::{Principal, Resource, WorldFault, WorldParts};
use std::alloc::Global;
use std::marker::Model;

/// A world: a moment, accounts, principals with their policies, actions and resources.
#[derive(Debug, Drop)]
pub struct World {
    parts: WorldParts,
    // The moment, as `aws:CurrentTime` says it.
    stamp: String,
}

impl Model for World {
    ghost Value = { WorldValue };

    ghost view = { λ w. w.parts };

    ghost invariant = { λ w. IsStamp (pos w.parts.moment) (string_bytes w.stamp) };
}

/// Whether no level of control policies and no key stands with the resource.
fn is_bare(resource: &Resource) -> bool
    ensures { IsTrue result → IsBare resource.now }
{
    resource.control().is_empty() && resource.context().is_empty()
}

impl World {
    ghost use Rattle.std.specs.List.{slice_get};
    ghost use Rattle.iam_shape.specs.Few.{HasFewLevels};
    ghost use Rattle.iam_world.specs.Reads.{IsWorld};
    ghost use Rattle.iam_world.specs.WorldFault.{IsFirstWorldFault};
    ghost use Rattle.iam_context.specs.Context.{ContextValue};
    ghost use Rattle.iam_world.specs.World.{world_cells, world_statements};
    ghost use Rattle.iam_world.specs.Invariants.{HasFewPolicies};
    ghost use Rattle.iam_world.specs.declared.fault.WorldFault.TheVariants as w;
    ghost use Rattle.iam_match.specs.Request.{access_of};
    ghost use Rattle.iam_layers.specs.Unnamed.{AreUnnamedKeys, AreUnnamedPolicies, HasAccount};
    ghost use Rattle.iam_layers.specs.declared.unnamed.Unnamed.TheVariants.{Of};
    ghost use Rattle.iam_layers.specs.Cell.{IsAccessAt, IsAction, IsApplicableAt, IsCell, IsContextAt, IsDerivedAt, IsPrincipal, IsRequestContext, IsResource, IsSharedAt, IsVerdictAt, principal_text};

    /// The world of a JSON document, or the first fault of its bytes: `TooLarge` for over 8,388,608 of them, then 1
    /// to 8 by number, each at its first place, then `TooLarge` for over 16,777,216 cells or 4,096 statements.
    /// `OutOfMemory` can come at any point. The bytes are copied; [`World::from_vec`] takes them.
    pub fn read(alloc: Global, bytes: &[u8]) -> Result<World, WorldFault>
        ensures ok { IfOk result (IsWorld bytes.now) }
        ensures fault { IfErr result (λ fault. fault ≢ w.OutOfMemory → IsFirstWorldFault bytes.now fault) }
    {
        World::from_vec(alloc, Vec::from_slice(alloc, bytes)?)
    }

    /// The world of a JSON document as [`World::read`] gives it, of bytes that are let go once they are parsed.
    pub fn from_vec(alloc: Global, bytes: Vec<u8>) -> Result<World, WorldFault>
        ensures ok { IfOk result (IsWorld bytes.items) }
        ensures fault { IfErr result (λ fault. fault ≢ w.OutOfMemory → IsFirstWorldFault bytes.items fault) }
    {
        let parts = WorldParts::read(alloc, bytes)?;
        Ok(World::of(alloc, parts)?)
    }

    /// As [`World::from_vec`], for a run that soon ends: the memory of what was parsed is not given back, also after a fault.
    pub fn from_vec_leaking(alloc: Global, bytes: Vec<u8>) -> Result<World, WorldFault>
        ensures ok { IfOk result (IsWorld bytes.items) }
        ensures fault { IfErr result (λ fault. fault ≢ w.OutOfMemory → IsFirstWorldFault bytes.items fault) }
    {
        let parts = WorldParts::read_leaking(alloc, bytes)?;
        Ok(World::of(alloc, parts)?)
    }

    fn of(alloc: Global, parts: WorldParts) -> Result<World, OutOfMemory>
        ensures { IfOk result (λ world. world ≡ parts) }
    {
        let stamp = stamp_of(alloc, parts.moment())?;
        Ok(World { parts, stamp })
    }

    /// How many principals there are.
    pub fn principals(&self) -> u64
        ensures { result ≡ length self.now.principals }
    {
        self.parts.principals().len() as u64
    }

    /// How many actions there are.
    pub fn actions(&self) -> u64
        ensures { result ≡ length self.now.actions }
    {
        self.parts.actions().len() as u64
    }

    /// How many resources there are.
    pub fn resources(&self) -> u64
        ensures { result ≡ length self.now.resources }
    {
        self.parts.resources().len() as u64
    }

    /// Whether there is an account with this id.
    pub fn has_account(&self, id: &str) -> bool
        ensures { IsTrue result ↔ HasAccount self.now id.now }
    {
        self.parts.account(id).is_some()
    }

    /// The moment, in seconds from 1970-01-01T00:00:00Z, at most 253,402,300,799: the end of the year 9999.
    pub fn moment(&self) -> u64
        ensures value { result ≡ self.now.moment }
        ensures most { result ≤ 253402300799 }
    {
        self.parts.moment()
    }

    /// How many cells the matrix has: one for each principal, action and resource; at most 16,777,216.
    pub fn cells(&self) -> u64
        ensures value { result ≡ world_cells self.now }
        ensures few { result ≤ 16777216 }
    {
        self.parts.cells()
    }

    /// How many statements the policies have, at most 4,096.
    pub fn statements(&self) -> u64
        ensures value { result ≡ world_statements self.now }
        ensures few { result ≤ 4096 }
    {
        self.parts.statements()
    }

    /// The number of the cell of principal p, action a and resource r, each below the number of its kind.
    pub fn cell(&self, p: u64, a: u64, r: u64) -> u64
        requires principal { p < length self.now.principals }
        requires action { a < length self.now.actions }
        requires resource { r < length self.now.resources }
        ensures is { IsCell self.now result p a r }
        ensures below { result < world_cells self.now }
    {
        // A world has at most 16,777,216 cells, so the number fits.
        let _cells = self.cells();
        (p * self.actions() + a) * self.resources() + r
    }

    /// The principal, the action and the resource of a cell, which has to be below `cells()`.
    pub fn triple(&self, cell: u64) -> (u64, u64, u64)
        requires { cell < world_cells self.now }
        ensures is { IsCell self.now cell result.0 result.1 result.2 }
        ensures only { (p a r : ℕ) → IsCell self.now cell p a r → result ≡ (p, a, r) }
    {
        let row = cell / self.resources();
        (
            row / self.actions(),
            row % self.actions(),
            cell % self.resources(),
        )
    }

    /// The requester of principal p, which has to be below `principals()`.
    pub fn requester(&self, p: u64) -> &Requester
        requires { p < length self.now.principals }
        ensures { IsPrincipal self.now p (λ principal. result.now ≡ principal.requester) }
    {
        self.principal(p).requester()
    }

    /// The text of principal p in a report, the ARN of the user or of the session; p has to be below `principals()`.
    pub fn principal_text(&self, p: u64) -> &str
        requires { p < length self.now.principals }
        ensures { IsPrincipal self.now p (λ principal. result.now ≡ principal_text principal) }
    {
        self.requester(p).name()
    }

    /// The text of action a, which has to be below `actions()`.
    pub fn action_text(&self, a: u64) -> &str
        requires { a < length self.now.actions }
        ensures { IsAction self.now a result.now }
    {
        self.parts.actions()[a as usize].as_str()
    }

    /// The text of resource r, its ARN or `*`; r has to be below `resources()`.
    pub fn resource_text(&self, r: u64) -> &str
        requires { r < length self.now.resources }
        ensures { IsResource self.now r (λ resource. result.now ≡ resource.arn) }
    {
        self.resource(r).arn()
    }

    /// The keys that follow from principal p, resource r and the moment, each number below that of its kind.
    ///
    /// AWS IAM User Guide, "AWS global condition context keys".
    pub fn derived(&self, alloc: Global, p: u64, r: u64) -> Result<Derived, OutOfMemory>
        requires principal { p < length self.now.principals }
        requires resource { r < length self.now.resources }
        ensures { IfOk result (λ derived. IsDerivedAt self.now p r derived.items) }
    {
        keys_with(
            alloc,
            self.requester(p),
            self.resource(r).account(),
            self.parts.moment(),
            self.stamp.as_str(),
        )
    }

    /// The keys that follow from principal p, resource r and this moment in place of the world's, in seconds from 1970-01-01T00:00:00Z
    /// and at most 253,402,300,799; p and r are below the number of their kind.
    ///
    /// AWS IAM User Guide, "AWS global condition context keys".
    pub fn derived_at(
        &self,
        alloc: Global,
        p: u64,
        r: u64,
        moment: u64,
    ) -> Result<Derived, OutOfMemory>
        requires principal { p < length self.now.principals }
        requires resource { r < length self.now.resources }
        requires moment { moment ≤ 253402300799 }
        ensures { IfOk result (λ derived. IsDerivedAt (record self.now { moment = moment }) p r derived.items) }
    {
        let stamp = stamp_of(alloc, moment)?;
        let account = self.resource(r).account();
        keys_with(alloc, self.requester(p), account, moment, stamp.as_str())
    }

    /// `true` only where the keys that follow from a principal, a resource and the moment are the same for these two resources,
    /// whoever asks: where both are of one account. Each has to be below the number of resources.
    pub fn has_same_derived(&self, r: u64, other: u64) -> bool
        requires resource { r < length self.now.resources }
        requires other { other < length self.now.resources }
        ensures { IsTrue result → (p : ℕ) (derived : ContextValue) → IsDerivedAt self.now p r derived
            → IsDerivedAt self.now p other derived }
    {
        self.resource(r).account() == self.resource(other).account()
    }

    /// `true` only where the two resources are the same but for their ARN and their policy; it is not found where levels of control
    /// policies or keys stand with one. Each has to be below the number of resources.
    pub fn is_same_but_policy(&self, r: u64, other: u64) -> bool
        requires resource { r < length self.now.resources }
        requires other { other < length self.now.resources }
        ensures { IsTrue result → AreSameButPolicy self.now r other }
    {
        let one = self.resource(r);
        let two = self.resource(other);
        one.account() == two.account()
            && one.is_sealed() == two.is_sealed()
            && is_bare(one)
            && is_bare(two)
    }

    /// The context of requests of principal p for resource r: the keys that the world, the principal and the resource
    /// give, and the derived ones, which have to be those of p and r.
    ///
    /// AWS IAM User Guide, "AWS global condition context keys".
    pub fn context<'a>(
        &'a self,
        alloc: Global,
        p: u64,
        r: u64,
        derived: &'a Derived,
    ) -> Result<Context<'a>, OutOfMemory>
        requires principal { p < length self.now.principals }
        requires resource { r < length self.now.resources }
        requires derived { IsDerivedAt self.now p r derived.now.items }
        ensures { IfOk result (IsContextAt self.entry.now p r derived.entry.now.items) }
    {
        let given = [
            self.parts.context(),
            self.principal(p).context(),
            self.resource(r).context(),
        ];
        Context::of(alloc, given, derived)
    }

    /// The policies that apply where principal p asks for resource r, each below the number of its kind.
    ///
    /// AWS IAM User Guide, "Policy evaluation logic".
    pub fn applicable(&self, p: u64, r: u64) -> Applicable<'_>
        requires principal { p < length self.now.principals }
        requires resource { r < length self.now.resources }
        ensures value { IsApplicableAt self.now p r (value_of result) }
        ensures numbered { IsNumbered (value_of result) }
    {
        let principal = self.principal(p);
        let resource = self.resource(r);
        let account = principal.requester().account();
        Applicable {
            org: org_of(self.parts.account(account)),
            control: control_of(&self.parts, resource.account(), resource),
            resource: resource.policy(),
            identity: principal.identity(),
            boundary: principal.boundary(),
            session: principal.session(),
            same_account: account == resource.account(),
            sealed: resource.is_sealed(),
        }
    }

    /// The policies that apply where principal p asks for a resource of this account of which nothing else is said; p has to be below
    /// `principals()`.
    pub(crate) fn applicable_alone(&self, p: u64, account: &str) -> Applicable<'_>
        requires { p < length self.now.principals }
        ensures value { AreUnnamedPolicies self.now p (Of account.entry) (value_of result) }
        ensures numbered { IsNumbered (value_of result) }
    {
        let principal = self.principal(p);
        let own = principal.requester().account();
        Applicable {
            org: org_of(self.parts.account(own)),
            control: &[],
            resource: None,
            identity: principal.identity(),
            boundary: principal.boundary(),
            session: principal.session(),
            same_account: own == account,
            sealed: false,
        }
    }

    /// The keys that follow from principal p, a resource of this account and the moment; p has to be below `principals()`.
    pub(crate) fn derived_in(
        &self,
        alloc: Global,
        p: u64,
        account: &str,
    ) -> Result<Derived, OutOfMemory>
        requires { p < length self.now.principals }
        ensures { IfOk result (λ derived. AreUnnamedKeys self.now p (Of account.entry) derived.items) }
    {
        keys_with(
            alloc,
            self.requester(p),
            account,
            self.parts.moment(),
            self.stamp.as_str(),
        )
    }

    /// The same at this moment in place of the world's, as of [`World::derived_at`].
    pub(crate) fn derived_in_at(
        &self,
        alloc: Global,
        p: u64,
        account: &str,
        moment: u64,
    ) -> Result<Derived, OutOfMemory>
        requires principal { p < length self.now.principals }
        requires moment { moment ≤ 253402300799 }
        ensures { IfOk result (λ derived. AreUnnamedKeys (record self.now { moment = moment }) p (Of account.entry) derived.items) }
    {
        let stamp = stamp_of(alloc, moment)?;
        keys_with(alloc, self.requester(p), account, moment, stamp.as_str())
    }

    /// How many levels of policies the organisation has that binds principal p, which has to be below `principals()`.
    pub fn org_levels(&self, p: u64) -> u32
        requires { p < length self.now.principals }
        ensures { HasLevels self.now p result }
    {
        org_of(self.parts.account(self.requester(p).account())).len() as u32
    }

    /// What a decision on principal p's requests for resource r, each below the number of its kind, asks beside the statements,
    /// where the organisation that binds p has so many levels of policies.
    pub fn frame_with(&self, p: u64, r: u64, levels: u32) -> Frame
        requires principal { p < length self.now.principals }
        requires resource { r < length self.now.resources }
        requires levels { HasLevels self.now p levels }
        ensures { (applicable : ApplicableValue) → IsApplicableAt self.now p r applicable → result ≡ frame_of applicable }
    {
        let principal = self.principal(p);
        let resource = self.resource(r);
        let account = resource.account();
        let same_account = principal.requester().account() == account;
        let sealed = resource.is_sealed();
        Frame {
            org: levels,
            control: control_of(&self.parts, account, resource).len() as u32,
            boundary: principal.boundary().is_some(),
            session: !principal.session().is_empty(),
            same_account,
            sealed,
        }
    }

    fn principal(&self, p: u64) -> &Principal
        requires { p < length self.now.principals }
        ensures is { slice_get self.now.principals p ≡ Some result.now }
        ensures few { HasFewPolicies result.now }
    {
        &self.parts.principals()[p as usize]
    }

    fn resource(&self, r: u64) -> &Resource
        requires { r < length self.now.resources }
        ensures is { slice_get self.now.resources r ≡ Some result.now }
        ensures few { HasFewLevels result.now.control }
    {
        &self.parts.resources()[r as usize]
    }

    /// What the requests of principal p for resource r share, where these derived keys complete their context: found by a
    /// scan of all statements that apply. The derived keys of a principal serve all resources of one account
    /// ([`World::has_same_derived`]).
    pub fn shared_with<'a: 'c, 'c>(
        &'a self,
        alloc: Global,
        p: u64,
        r: u64,
        derived: &'c Derived,
    ) -> Result<Shared<'a>, OutOfMemory>
        requires principal { p < length self.now.principals }
        requires resource { r < length self.now.resources }
        requires derived { IsDerivedAt self.now p r derived.now.items }
        ensures { IfOk result (IsSharedAt self.entry.now p r) }
    {
        let context = self.context(alloc, p, r, derived)?;
        let access = self.access(p, r, &context);
        self.applicable(p, r).shared(alloc, access)
    }

    /// Who asks for what where principal p asks for resource r, in this context, which has to be that of such a request.
    pub fn access<'a, 'c>(&'a self, p: u64, r: u64, context: &'a Context<'c>) -> Access<'a, 'c>
        requires principal { p < length self.now.principals }
        requires resource { r < length self.now.resources }
        requires context { IsRequestContext self.now p r context.now }
        ensures { (applicable : ApplicableValue) → IsApplicableAt self.entry.now p r applicable
            → IsAccessAt self.entry.now p r applicable (access_of result) }
    {
        Access {
            requester: self.requester(p),
            resource: self.resource_text(r),
            context,
        }
    }

    /// `true` only where the same policies of the organisation bind both principals: where both are of one account.
    pub fn has_same_org(&self, p: u64, other: u64) -> bool
        requires principal { p < length self.now.principals }
        requires other { other < length self.now.principals }
        ensures { IsTrue result → HaveSameOrg self.now p other }
    {
        self.requester(p).account() == self.requester(other).account()
    }

    /// What the requests of principal p for resource r share, whatever their actions, each below the number of its kind:
    /// found by a scan of all statements that apply.
    pub fn shared(&self, alloc: Global, p: u64, r: u64) -> Result<Shared<'_>, OutOfMemory>
        requires principal { p < length self.now.principals }
        requires resource { r < length self.now.resources }
        ensures { IfOk result (IsSharedAt self.entry.now p r) }
    {
        let derived = self.derived(alloc, p, r)?;
        self.shared_with(alloc, p, r, &derived)
    }

    /// The verdict on principal p's request for action a on resource r, each below the number of its kind, by a scan of
    /// all statements that apply. `OutOfMemory` comes where the derived keys, the context, a resolved pattern, the
    /// found statements or the answer find no memory.
    ///
    /// AWS IAM User Guide, "Policy evaluation logic"; the deciding statements and the lacks are our choices.
    pub fn decide_plain(
        &self,
        alloc: Global,
        p: u64,
        a: u64,
        r: u64,
    ) -> Result<Verdict, OutOfMemory>
        requires principal { p < length self.now.principals }
        requires action { a < length self.now.actions }
        requires resource { r < length self.now.resources }
        ensures { IfOk result (IsVerdictAt self.now p a r) }
    {
        let shared = self.shared(alloc, p, r)?;
        shared.verdict(alloc, self.action_text(a))
    }

    // The keys of requests, in parts that are made once and lent to the contexts of many.

    /// The keys that the world gives to each request, to be lent to contexts.
    pub fn world_keys(&self, alloc: Global) -> Result<Sought<'_>, OutOfMemory>
        ensures { IfOk result (λ keys. keys ≡ self.entry.now.context) }
    {
        Sought::of(alloc, self.parts.context())
    }

    /// The keys that principal p gives to its requests, to be lent to contexts; p has to be below `principals()`.
    pub fn principal_keys(&self, alloc: Global, p: u64) -> Result<Sought<'_>, OutOfMemory>
        requires { p < length self.now.principals }
        ensures { IfOk result (λ keys. IsPrincipal self.entry.now p (λ principal. keys ≡ principal.context)) }
    {
        Sought::of(alloc, self.principal(p).context())
    }

    /// The keys that resource r gives to requests for it, to be lent to contexts; r has to be below `resources()`.
    pub fn resource_keys(&self, alloc: Global, r: u64) -> Result<Sought<'_>, OutOfMemory>
        requires { r < length self.now.resources }
        ensures { IfOk result (λ keys. IsResource self.entry.now r (λ resource. keys ≡ resource.context)) }
    {
        Sought::of(alloc, self.resource(r).context())
    }

    /// The keys that the world gives to each request, as they are kept.
    pub fn world_part(&self) -> &Part
        ensures { result.now.items ≡ self.entry.now.context }
    {
        self.parts.context()
    }

    /// The keys that principal p gives to its requests, as they are kept; p has to be below `principals()`.
    pub fn principal_part(&self, p: u64) -> &Part
        requires { p < length self.now.principals }
        ensures { IsPrincipal self.entry.now p (λ principal. result.now.items ≡ principal.context) }
    {
        self.principal(p).context()
    }

    /// The keys that resource r gives to requests for it, as they are kept; r has to be below `resources()`.
    pub fn resource_part(&self, r: u64) -> &Part
        requires { r < length self.now.resources }
        ensures { IsResource self.entry.now r (λ resource. result.now.items ≡ resource.context) }
    {
        self.resource(r).context()
    }

    /// The context that [`World::context`] makes, over keys that are lent: those of the world, of principal p and of resource
    /// r, and the derived ones, which have to be those of p and r. It takes no memory.
    pub fn context_with<'c>(
        &self,
        p: u64,
        r: u64,
        world_keys: &'c Sought<'_>,
        principal_keys: &'c Sought<'_>,
        resource_keys: &'c Sought<'_>,
        derived: &'c Derived,
    ) -> Context<'c>
        requires world_keys { world_keys.now ≡ self.now.context }
        requires principal_keys { IsPrincipal self.now p (λ principal. principal_keys.now ≡ principal.context) }
        requires resource_keys { IsResource self.now r (λ resource. resource_keys.now ≡ resource.context) }
        ensures { IsContextAt self.now p r derived.entry.now.items result }
    {
        Context::sought(world_keys, principal_keys, resource_keys, derived)
    }
}
