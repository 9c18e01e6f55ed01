// What a world says, lent from its document.
ghost use Rattle.std.specs.Prelude.{map};
ghost use Rattle.iam_shape.specs.Texts.{AreFirstPlaces};
ghost use Rattle.iam_shape.specs.Lent.{account_of};

use crate::levels::Levels;
use serde_json::Value;
use std::collections::HashMap;

/// What an account of a document says.
#[derive(Clone, Copy)]
pub struct AccountView<'v> {
    /// Twelve digits.
    pub id: &'v str,
    /// Whether it manages its organisation.
    pub management: bool,
    /// The policies of its organisation.
    pub org: Levels<'v>,
}

/// What a principal of a document says.
#[derive(Clone, Copy)]
pub struct PrincipalView<'v> {
    /// The ARN of a user, or of the role of a session.
    pub arn: &'v str,
    /// The name of the session; a user has none.
    pub session_name: Option<&'v str>,
    /// Its identity policies.
    pub identity: &'v [Value],
    /// The policy that bounds it.
    pub boundary: Option<&'v Value>,
    /// The policies of the session; a user has none.
    pub session_policies: &'v [Value],
    /// Its part of the request's context.
    pub context: Option<&'v Value>,
}

/// What a resource of a document says.
#[derive(Clone, Copy)]
pub struct ResourceView<'v> {
    /// Its ARN, or `*`.
    pub arn: &'v str,
    /// The id of its account.
    pub account: &'v str,
    pub policy: Option<&'v Value>,
    /// Whether its policy must grant.
    pub sealed: bool,
    /// Its part of the request's context.
    pub context: Option<&'v Value>,
    /// Its resource control policies.
    pub control: Levels<'v>,
}

/// What the accounts of a document say, with their numbers by their ids.
#[derive(Drop)]
pub struct Accounts<'v> {
    /// The accounts in the order of the document.
    pub views: Vec<AccountView<'v>>,
    /// The number of each by its id.
    pub ids: HashMap<String, usize>,
    ghost known: { AreFirstPlaces ids (map (λ account. account.id) (map account_of views.items)) },
}

/// What a world document says.
#[derive(Drop)]
pub struct WorldView<'v> {
    /// Seconds since 1970.
    pub moment: u64,
    pub accounts: Accounts<'v>,
    pub principals: Vec<PrincipalView<'v>>,
    pub actions: Vec<&'v str>,
    pub resources: Vec<ResourceView<'v>>,
    /// The part of the context that every request has.
    pub context: Option<&'v Value>,
}
