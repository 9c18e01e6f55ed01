// A statement, and reading it.
ghost use Rattle.std.specs.Prelude.{◌≡◌, IfOk, codes, false, option_map, string_bytes};
ghost use Rattle.serde_json.specs.Find.{get};
ghost use Rattle.serde_json.specs.View.{view};
ghost use Rattle.iam_condition.specs.Condition.{has_bad_text};
ghost use Rattle.iam_element.specs.Element.{stands_as};
ghost use Rattle.iam_policy.specs.Fault.{HasBadValueIn};
ghost use Rattle.iam_policy.specs.Reading.{ReadsConditions, ReadsStatement};
ghost use Rattle.iam_policy.specs.Statement.{sid_of};

use crate::effect::{Effect, effect_of};
use crate::sids::sid_of;
use iam_condition::{Entry, read_entries};
use iam_element::{
    Actions, Members, Principals, Resources, read_action, read_principal, read_resource,
};
use iam_text::{OutOfMemory, Version};
use std::alloc::Global;
use std::marker::Model;

/// A statement of a policy.
#[derive(Debug, Drop)]
pub struct Statement {
    sid: Option<String>,
    effect: Effect,
    action: Actions,
    resource: Option<Resources>,
    principal: Option<Principals>,
    conditions: Vec<Entry>,
}

impl Model for Statement {
    ghost use Rattle.std.specs.Prelude.{option_map, string_bytes};
    ghost use Rattle.iam_policy.specs.Reading.{StatementValue};

    ghost Value = { StatementValue };

    ghost view = { λ s. record {
      sid = option_map string_bytes s.sid;
      effect = s.effect;
      action = s.action;
      resource = s.resource;
      principal = s.principal;
      conditions = s.conditions.items;
    } };
}

impl Statement {
    ghost use Rattle.std.specs.Option.{option_copied};
    ghost use Rattle.iam_policy.specs.Code.Readable.{IsReadable};

    /// The `Sid`, which may be empty.
    pub fn sid(&self) -> Option<&str>
        ensures { option_copied result ≡ self.now.sid }
    {
        self.sid.as_deref()
    }

    /// Whether it allows or denies.
    pub fn effect(&self) -> Effect
        ensures { result ≡ self.now.effect }
    {
        self.effect
    }

    /// `Action` or `NotAction`.
    pub fn action(&self) -> &Actions
        ensures { result.now ≡ self.now.action }
    {
        &self.action
    }

    /// `Resource` or `NotResource`; a statement of a resource's policy may have neither.
    pub fn resource(&self) -> Option<&Resources>
        ensures { option_copied result ≡ self.now.resource }
    {
        self.resource.as_ref()
    }

    /// `Principal` or `NotPrincipal`; a statement of a resource's policy or of a resource control policy alone has one.
    pub fn principal(&self) -> Option<&Principals>
        ensures { option_copied result ≡ self.now.principal }
    {
        self.principal.as_ref()
    }

    /// The entries of `Condition`; an absent one has none.
    pub fn conditions(&self) -> &[Entry]
        ensures { result.now ≡ self.now.conditions }
    {
        self.conditions.as_slice()
    }

    /// Reads a statement that has an effect and an action element, in a document of the version.
    pub(crate) fn read(
        alloc: Global,
        statement: &Members<'_>,
        version: Version,
    ) -> Result<Statement, OutOfMemory>
        requires { IsReadable version (view statement.now) }
        ensures { IfOk result (λ r. ReadsStatement version (view statement.now) r) }
    {
        Ok(Statement {
            sid: read_sid(alloc, statement)?,
            effect: effect_of(statement).unwrap(),
            action: read_action(alloc, statement)?,
            resource: read_resource(alloc, statement, version)?,
            principal: read_principal(alloc, statement)?,
            conditions: read_conditions(alloc, statement, version)?,
        })
    }
}

fn read_sid(alloc: Global, statement: &Members<'_>) -> Result<Option<String>, OutOfMemory>
    ensures { IfOk result (λ sid. option_map string_bytes sid ≡ sid_of (view statement.now)) }
{
    match sid_of(statement) {
        Some(sid) => Ok(Some(String::from_str(alloc, sid)?)),
        None => Ok(None),
    }
}

fn read_conditions(
    alloc: Global,
    statement: &Members<'_>,
    version: Version,
) -> Result<Vec<Entry>, OutOfMemory>
    requires texts { stands_as (has_bad_text version) (get (codes "Condition") (view statement.now)) ≡ false }
    requires values { ¬ HasBadValueIn (view statement.now) }
    ensures { IfOk result (λ entries. ReadsConditions version (get (codes "Condition") (view statement.now)) entries.items) }
{
    match statement.condition {
        Some(condition) => read_entries(alloc, condition, version),
        None => Ok(Vec::new(alloc)),
    }
}
