// Requests that give keys of their own, beside those of the world, its principal and its resource.
ghost use Rattle.std.specs.Prelude.{◌≡◌, ◌≢◌, ◌<◌, IfErr, IfOk, OnOk, length, map};
ghost use Rattle.iam_context.specs.declared.fault.ContextFault.TheVariants as f;
ghost use Rattle.iam_decision.specs.Applicable.{ApplicableValue};
ghost use Rattle.iam_match.specs.Request.{access_of};
ghost use Rattle.iam_layers.specs.Cell.{IsApplicableAt, IsDerivedAt};
ghost use Rattle.iam_layers.specs.Own.{IsCleanAt, IsFaultAt, IsOwnAccess, IsOwnContext, OfParts};

use crate::world::World;
use iam_context::{Context, ContextFault, Derived, Part};
use iam_match::Access;
use std::alloc::Global;

impl World {
    /// Whether principal p may give these keys of its own where it asks for resource r, each below the number of its kind.
    /// `KeyTwice` where a key stands twice, or with the world, the principal or the resource too; then `DerivedKeyGiven` where one
    /// follows from requester, resource or moment; `OutOfMemory` where the allocator refused a growth.
    pub fn check_own(&self, alloc: Global, p: u64, r: u64, own: &Part) -> Result<(), ContextFault>
        requires principal { p < length self.now.principals }
        requires resource { r < length self.now.resources }
        ensures ok { OnOk result (IsCleanAt self.now p r own.now.items) }
        ensures fault { IfErr result (λ fault. fault ≢ f.OutOfMemory → IsFaultAt self.now p r own.now.items fault) }
    {
        let derived = Vec::new(alloc);
        let given = self.given(p, r, own);
        Context::join(alloc, &given, &derived)?;
        Ok(())
    }

    /// The context of a request of principal p for resource r, each below the number of its kind, that gives these keys of its own,
    /// which stand behind those of the world, the principal and the resource, and before the derived ones, which have to be those of p
    /// and r. The same faults as of [`World::check_own`].
    ///
    /// AWS IAM User Guide, "AWS global condition context keys".
    pub fn own_context<'a>(
        &'a self,
        alloc: Global,
        p: u64,
        r: u64,
        own: &'a Part,
        derived: &'a Derived,
    ) -> Result<Context<'a>, ContextFault>
        requires principal { p < length self.now.principals }
        requires resource { r < length self.now.resources }
        ensures ok { IfOk result (IsOwnContext self.entry.now p r own.entry.now.items derived.entry.now.items) }
        ensures fault { IfErr result (λ fault. fault ≢ f.OutOfMemory → IsFaultAt self.entry.now p r own.entry.now.items fault) }
    {
        let given = self.given(p, r, own);
        Context::join(alloc, &given, derived)
    }

    /// Who asks for what where principal p asks for resource r and gives these keys of its own, in this context, which has to be
    /// that of such a request.
    pub fn own_access<'a, 'c>(
        &'a self,
        p: u64,
        r: u64,
        own: &Part,
        derived: &Derived,
        context: &'a Context<'c>,
    ) -> Access<'a, 'c>
        requires principal { p < length self.now.principals }
        requires resource { r < length self.now.resources }
        requires derived { IsDerivedAt self.now p r derived.now.items }
        requires context { IsOwnContext self.now p r own.now.items derived.now.items context.now }
        ensures { (applicable : ApplicableValue) → IsApplicableAt self.entry.now p r applicable
            → IsOwnAccess self.entry.now p r own.now.items applicable (access_of result) }
    {
        Access {
            requester: self.requester(p),
            resource: self.resource_text(r),
            context,
        }
    }

    /// The parts of the context of such a request.
    fn given<'a>(&'a self, p: u64, r: u64, own: &'a Part) -> [&'a Part; 4]
        requires principal { p < length self.now.principals }
        requires resource { r < length self.now.resources }
        ensures { OfParts self.entry.now p r own.entry.now.items (λ given. map (λ part. part.now.items) result ≡ given) }
    {
        [
            self.world_part(),
            self.principal_part(p),
            self.resource_part(r),
            own,
        ]
    }
}
