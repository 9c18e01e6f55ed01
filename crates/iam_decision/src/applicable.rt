// The policies that apply to a request, each by its layer.
ghost use Rattle.std.specs.Prelude.{◌≡◌, [], get_or, map, option_map};
ghost use Rattle.std.specs.Option.{option_to_list};

use crate::frame::Frame;
use crate::living::living_among;
use crate::place::{Layer, Place};
use crate::shared::Shared;
use iam_match::{Access, OutOfMemory};
use iam_policy::{Policy, Statement};
use std::alloc::Global;
use std::slice;

/// The policies that apply to a request, by layer, and what the decision asks of the accounts and the resource.
///
/// AWS IAM User Guide, "Policy evaluation logic".
#[derive(Clone, Copy)]
pub struct Applicable<'a> {
    /// The organisation policies of the requester's account by level from the root; none for a management account.
    pub org: &'a [Vec<Policy>],
    /// The resource control policies of the resource by level from the root; none in a management account.
    pub control: &'a [Vec<Policy>],
    /// The policy of the resource.
    pub resource: Option<&'a Policy>,
    /// The policies attached to the requester.
    pub identity: &'a [Policy],
    /// The permissions boundary of the requester.
    pub boundary: Option<&'a Policy>,
    /// The session policies of the requester.
    pub session: &'a [Policy],
    /// Whether requester and resource are of one account.
    pub same_account: bool,
    /// Whether the policy of the resource must grant also in the same account.
    pub sealed: bool,
}

impl<'a> Applicable<'a> {
    ghost use Rattle.std.specs.Prelude.{◌≡◌, ℕ, IfOk, List};
    ghost use Rattle.std.specs.Option.{option_copied};
    ghost use Rattle.iam_match.specs.Request.{access_of};
    ghost use Rattle.iam_decision.specs.Applicable.{IsNumbered, frame_of, value_of};
    ghost use Rattle.iam_decision.specs.Living.{IsShared};
    ghost use Rattle.iam_decision.specs.Matched.{policies_at, statement_at};

    /// What requests for this access share, for each list of actions: found among all statements of these policies.
    ///
    /// The lists of levels and each list of policies have to have fewer than 2^32 members.
    ///
    /// AWS IAM User Guide, "Policy evaluation logic".
    pub fn shared<'c>(
        &self,
        alloc: Global,
        access: Access<'_, 'c>,
    ) -> Result<Shared<'a>, OutOfMemory>
    where
        'a: 'c,
        requires { IsNumbered (value_of self.now) }
        ensures { IfOk result (λ shared. (actions : List (List ℕ)) → IsShared actions (value_of self.now) (access_of access.entry) shared) }
    {
        let statements = self.statements(alloc)?;
        let living = living_among(alloc, statements.as_slice(), access)?;
        Ok(Shared::of(self.frame(), living))
    }

    /// What a decision asks beside the statements. The lists of levels have to have fewer than 2^32 members.
    pub fn frame(&self) -> Frame
        requires { IsNumbered (value_of self.now) }
        ensures { result ≡ frame_of (value_of self.now) }
    {
        Frame {
            org: self.org.len() as u32,
            control: self.control.len() as u32,
            boundary: self.boundary.is_some(),
            session: !self.session.is_empty(),
            same_account: self.same_account,
            sealed: self.sealed,
        }
    }

    /// The statement that stands at a place, if one does.
    pub fn statement_at(&self, place: Place) -> Option<&'a Statement>
        ensures { option_copied result ≡ statement_at (value_of self.now) place }
    {
        let policies = self.policies_at(place.layer, place.level);
        let policy = policies.get(place.policy as usize)?;
        policy.statements().get(place.statement as usize)
    }

    /// The policies of a level of a layer, in order; a layer without levels has one.
    fn policies_at(&self, layer: Layer, level: u32) -> &'a [Policy]
        ensures { result.now ≡ policies_at (value_of self.now) layer level }
    {
        match layer {
            Layer::Org => level_of(self.org, level),
            Layer::Control => level_of(self.control, level),
            Layer::Resource => as_list(self.resource),
            Layer::Identity => self.identity,
            Layer::Boundary => as_list(self.boundary),
            Layer::Session => self.session,
        }
    }
}

/// The policies of a level, in order.
fn level_of(levels: &[Vec<Policy>], level: u32) -> &[Policy]
    ensures { result.now ≡ get_or (map (λ level. level.items) levels.entry.now) level [] }
{
    match levels.get(level as usize) {
        Some(policies) => policies.as_slice(),
        None => &[],
    }
}

/// The policy by itself, if there is one.
fn as_list(policy: Option<&Policy>) -> &[Policy]
    ensures { result.now ≡ option_to_list (option_map (λ p. p.now) policy.entry) }
{
    match policy {
        Some(policy) => slice::from_ref(policy),
        None => &[],
    }
}
