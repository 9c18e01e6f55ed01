// Accounts, principals and resources, as a world has them.
ghost use Rattle.std.specs.Prelude.{◌≡◌, map, string_bytes, IfOk, option_map};
ghost use Rattle.std.specs.List.{zip};
ghost use Rattle.iam_shape.specs.Lent.{account_of, resource_of};
ghost use Rattle.iam_world.specs.Code.Made.{made_account, made_principal, made_resource};
ghost use Rattle.iam_world.specs.World.{AccountValue, PrincipalValue, ResourceValue};

use iam_context::{Part, Requester};
use iam_policy::Policy;
use iam_shape::{AccountView, ResourceView};
use iam_text::{Items, OutOfMemory};
use std::alloc::Global;
use std::marker::Model;

/// An account, with its organisation policies by level from the root.
#[derive(Debug, Drop)]
pub struct Account {
    id: String,
    management: bool,
    org: Vec<Vec<Policy>>,
}

impl Model for Account {
    ghost Value = { AccountValue };

    ghost view = { λ a. record {
      id = string_bytes a.id;
      management = a.management;
      org = map (λ level. level.items) a.org.items;
    } };
}

impl Account {
    /// Whether it manages its organisation.
    pub fn manages(&self) -> bool
        ensures { result ≡ self.now.management }
    {
        self.management
    }

    /// Its organisation policies, by level from the root.
    pub fn org(&self) -> &[Vec<Policy>]
        ensures { map (λ level. level.items) result.now ≡ self.now.org }
    {
        self.org.as_slice()
    }
}

/// A principal, with the policies that are attached to it.
#[derive(Debug, Drop)]
pub struct Principal {
    requester: Requester,
    identity: Items<Policy>,
    boundary: Option<Policy>,
    session: Items<Policy>,
    context: Part,
}

impl Model for Principal {
    ghost Value = { PrincipalValue };

    ghost view = { λ p. record {
      requester = p.requester;
      identity = p.identity;
      boundary = p.boundary;
      session = p.session;
      context = p.context.items;
    } };
}

impl Principal {
    /// Who asks.
    pub fn requester(&self) -> &Requester
        ensures { result.now ≡ self.now.requester }
    {
        &self.requester
    }

    /// The identity policies.
    pub fn identity(&self) -> &[Policy]
        ensures { result.now ≡ self.now.identity }
    {
        self.identity.as_slice()
    }

    /// The permissions boundary.
    pub fn boundary(&self) -> Option<&Policy>
        ensures { option_map (λ policy. policy.now) result ≡ self.now.boundary }
    {
        self.boundary.as_ref()
    }

    /// The session policies.
    pub fn session(&self) -> &[Policy]
        ensures { result.now ≡ self.now.session }
    {
        self.session.as_slice()
    }

    /// The keys that it gives to the context of its requests.
    pub fn context(&self) -> &Part
        ensures { result.now.items ≡ self.now.context }
    {
        &self.context
    }
}

/// A resource, with the policy that is attached to it, and its resource control policies by level from the root.
#[derive(Debug, Drop)]
pub struct Resource {
    arn: String,
    account: String,
    policy: Option<Policy>,
    sealed: bool,
    context: Part,
    control: Vec<Vec<Policy>>,
}

impl Model for Resource {
    ghost Value = { ResourceValue };

    ghost view = { λ r. record {
      arn = string_bytes r.arn;
      account = string_bytes r.account;
      policy = r.policy;
      sealed = r.sealed;
      context = r.context.items;
      control = map (λ level. level.items) r.control.items;
    } };
}

impl Resource {
    /// The ARN, or `*`.
    pub fn arn(&self) -> &str
        ensures { result.now ≡ self.now.arn }
    {
        self.arn.as_str()
    }

    /// The id of the account.
    pub fn account(&self) -> &str
        ensures { result.now ≡ self.now.account }
    {
        self.account.as_str()
    }

    /// The policy that is attached to it.
    pub fn policy(&self) -> Option<&Policy>
        ensures { option_map (λ policy. policy.now) result ≡ self.now.policy }
    {
        self.policy.as_ref()
    }

    /// Whether that policy must grant also in the same account.
    pub fn is_sealed(&self) -> bool
        ensures { result ≡ self.now.sealed }
    {
        self.sealed
    }

    /// The keys that it gives to the context of requests for it.
    pub fn context(&self) -> &Part
        ensures { result.now.items ≡ self.now.context }
    {
        &self.context
    }

    /// The resource control policies, by level from the root.
    pub fn control(&self) -> &[Vec<Policy>]
        ensures { map (λ level. level.items) result.now ≡ self.now.control }
    {
        self.control.as_slice()
    }
}

/// The accounts that a document gives, with these organisation policies.
pub fn accounts(
    alloc: Global,
    accounts: &[AccountView<'_>],
    org: Vec<Vec<Vec<Policy>>>,
) -> Result<Vec<Account>, OutOfMemory>
    ensures { IfOk result (λ read. read.items ≡ map (λ p. made_account (p.0, map (λ level. level.items) p.1.items))
        (zip (map account_of accounts.now) org.items)) }
{
    let mut read = Vec::with_capacity(alloc, accounts.len())?;
    for (account, org) in accounts.iter().zip(org) {
        read.push(Account {
            id: String::from_str(alloc, account.id)?,
            management: account.management,
            org,
        })?;
    }
    Ok(read)
}

/// The principals that are these requesters, with their policies and contexts.
pub fn principals(
    alloc: Global,
    requesters: Vec<Requester>,
    identity: Vec<Items<Policy>>,
    boundary: Vec<Option<Policy>>,
    session: Vec<Items<Policy>>,
    contexts: Vec<Part>,
) -> Result<Vec<Principal>, OutOfMemory>
    ensures { IfOk result (λ read. read.items ≡ map (λ p. made_principal (p.0, p.1.items))
        (zip (zip (zip (zip requesters.items identity.items) boundary.items) session.items) contexts.items)) }
{
    requesters
        .into_iter()
        .zip(identity)
        .zip(boundary)
        .zip(session)
        .zip(contexts)
        .map(|((((requester, identity), boundary), session), context)| Principal {
            requester,
            identity,
            boundary,
            session,
            context,
        })
        .collect(alloc)
}

/// The actions that a document gives.
pub fn read_actions(alloc: Global, actions: &[&str]) -> Result<Vec<String>, OutOfMemory>
    ensures { IfOk result (λ read. map string_bytes read.items ≡ map (λ action. action.now) actions.now) }
{
    let mut read = Vec::new(alloc);
    for action in actions {
        read.push(String::from_str(alloc, action)?)?;
    }
    Ok(read)
}

/// The resources that a document gives, with these policies and contexts.
pub fn resources(
    alloc: Global,
    resources: &[ResourceView<'_>],
    policies: Vec<Option<Policy>>,
    control: Vec<Vec<Vec<Policy>>>,
    contexts: Vec<Part>,
) -> Result<Vec<Resource>, OutOfMemory>
    ensures { IfOk result (λ read. read.items
        ≡ map (λ p. made_resource ((p.0.0, map (λ level. level.items) p.0.1.items), p.1.items))
        (zip (zip (zip (map resource_of resources.now) policies.items) control.items) contexts.items)) }
{
    let mut read = Vec::with_capacity(alloc, resources.len())?;
    for (((resource, policy), control), context) in resources
        .iter()
        .zip(policies)
        .zip(control)
        .zip(contexts)
    {
        read.push(Resource {
            arn: String::from_str(alloc, resource.arn)?,
            account: String::from_str(alloc, resource.account)?,
            policy,
            sealed: resource.sealed,
            context,
            control,
        })?;
    }
    Ok(read)
}
