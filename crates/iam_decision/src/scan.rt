// The statements of the applicable policies, in place order.
ghost use Rattle.std.specs.Prelude.{◌≡◌, ◌++◌, IfOk, OnOk, map, option_map};
ghost use Rattle.std.specs.Option.{option_to_list};
ghost use Rattle.iam_decision.specs.Matched.{in_layer, in_level, in_policy, placed};
ghost use Rattle.iam_decision.specs.Applicable.{HasCountableLevels, IsCountable, IsNumbered, value_of};
ghost use Rattle.iam_decision.specs.Code.Scan.{org_placed, placed_value, requester_placed, resource_placed};

use crate::applicable::Applicable;
use crate::place::{Layer, Place};
use iam_match::OutOfMemory;
use iam_policy::{Policy, Statement};
use std::alloc::Global;
use std::slice;

/// A statement, and the place where it stands.
#[derive(Clone, Copy)]
pub struct Standing<'a> {
    pub place: Place,
    pub statement: &'a Statement,
}

/// Adds the statements of a policy.
fn add_policy<'a>(
    statements: &mut Vec<Standing<'a>>,
    policy: &'a Policy,
    origin: Place,
) -> Result<(), OutOfMemory>
    ensures { OnOk result (map placed_value statements.new.items
        ≡ map placed_value statements.old.items ++ in_policy origin.layer origin.level origin.policy policy.entry.now) }
{
    for (number, statement) in policy.statements().iter().enumerate() {
        let place = Place {
            statement: number as u32,
            ..origin
        };
        statements.push(Standing { place, statement })?;
    }
    Ok(())
}

/// Adds the statements of the policies of a level.
fn add_level<'a>(
    statements: &mut Vec<Standing<'a>>,
    policies: &'a [Policy],
    layer: Layer,
    level: u32,
) -> Result<(), OutOfMemory>
    requires { IsCountable policies.now }
    ensures { OnOk result (map placed_value statements.new.items
        ≡ map placed_value statements.old.items ++ in_level layer level policies.entry.now) }
{
    for (number, policy) in policies.iter().enumerate() {
        let origin = Place {
            layer,
            level,
            policy: number as u32,
            statement: 0,
        };
        add_policy(statements, policy, origin)?;
    }
    Ok(())
}

/// Adds the statements of a policy, if there is one.
fn add_one<'a>(
    statements: &mut Vec<Standing<'a>>,
    policy: Option<&'a Policy>,
    layer: Layer,
) -> Result<(), OutOfMemory>
    ensures { OnOk result (map placed_value statements.new.items
        ≡ map placed_value statements.old.items ++ in_level layer 0 (option_to_list (option_map (λ p. p.now) policy.entry))) }
{
    match policy {
        Some(policy) => add_level(statements, slice::from_ref(policy), layer, 0),
        None => Ok(()),
    }
}

/// Adds the statements of the policies of a layer, level by level.
fn add_layer<'a>(
    statements: &mut Vec<Standing<'a>>,
    levels: &'a [Vec<Policy>],
    layer: Layer,
) -> Result<(), OutOfMemory>
    requires { HasCountableLevels (map (λ level. level.items) levels.now) }
    ensures { OnOk result (map placed_value statements.new.items
        ≡ map placed_value statements.old.items ++ in_layer layer (map (λ level. level.items) levels.entry.now)) }
{
    for (number, policies) in levels.iter().enumerate() {
        add_level(statements, policies.as_slice(), layer, number as u32)?;
    }
    Ok(())
}

impl<'a> Applicable<'a> {
    /// Adds the statements of the organisation's policies, in place order. The lists of policies have to have fewer than 2^32
    /// members, here and below.
    pub fn add_org(&self, statements: &mut Vec<Standing<'a>>) -> Result<(), OutOfMemory>
        requires { IsNumbered (value_of self.now) }
        ensures { OnOk result (map placed_value statements.new.items
            ≡ map placed_value statements.old.items ++ org_placed (value_of self.now)) }
    {
        add_layer(statements, self.org, Layer::Org)
    }

    /// Adds the statements that stand with the resource, in place order: those of its control policies and of its own policy.
    pub fn add_resource(&self, statements: &mut Vec<Standing<'a>>) -> Result<(), OutOfMemory>
        requires { IsNumbered (value_of self.now) }
        ensures { OnOk result (map placed_value statements.new.items
            ≡ map placed_value statements.old.items ++ resource_placed (value_of self.now)) }
    {
        add_layer(statements, self.control, Layer::Control)?;
        add_one(statements, self.resource, Layer::Resource)
    }

    /// Adds the statements of the requester, in place order: those of identity policies, boundary and session policies.
    pub fn add_requester(&self, statements: &mut Vec<Standing<'a>>) -> Result<(), OutOfMemory>
        requires { IsNumbered (value_of self.now) }
        ensures { OnOk result (map placed_value statements.new.items
            ≡ map placed_value statements.old.items ++ requester_placed (value_of self.now)) }
    {
        add_level(statements, self.identity, Layer::Identity, 0)?;
        add_one(statements, self.boundary, Layer::Boundary)?;
        add_level(statements, self.session, Layer::Session, 0)
    }

    /// All statements, in place order. The lists of levels and each list of policies have to have fewer than 2^32 members.
    pub fn statements(&self, alloc: Global) -> Result<Vec<Standing<'a>>, OutOfMemory>
        requires { IsNumbered (value_of self.now) }
        ensures { IfOk result (λ statements. map placed_value statements.items ≡ placed (value_of self.now)) }
    {
        let mut statements = Vec::new(alloc);
        self.add_org(&mut statements)?;
        self.add_resource(&mut statements)?;
        self.add_requester(&mut statements)?;
        Ok(statements)
    }
}
