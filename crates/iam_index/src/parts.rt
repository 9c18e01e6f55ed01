// The keys of a world's requests, part by part.
ghost use Rattle.std.specs.Prelude.{◌≡◌, ◌<◌, IfOk, length};
ghost use Rattle.iam_world.specs.World.{WorldValue};
ghost use Rattle.iam_index.specs.Parts.{AreAt, GivesPrincipal, GivesResource, AreParts};

use iam_context::{Context, Derived, Sought};
use iam_layers::World;
use iam_text::OutOfMemory;
use std::alloc::Global;
use std::marker::Model;

/// The keys that a world, its principals and its resources give to requests, each part made once and lent to the contexts of all of
/// them. A contract sees the world.
#[derive(Drop)]
pub struct Parts<'a> {
    world: &'a World,
    // Of all requests, and of those of each principal and for each resource.
    common: Sought<'a>,
    principals: Vec<Sought<'a>>,
    resources: Vec<Sought<'a>>,
}

impl<'a> Model for Parts<'a> {
    ghost Value = { WorldValue };

    ghost view = { λ parts. parts.world.now };

    ghost invariant = { λ parts. AreParts parts.world.now parts.common parts.principals.items parts.resources.items };
}

impl<'a> Parts<'a> {
    ghost use Rattle.iam_layers.specs.Cell.{IsContextAt};

    /// The parts of a world.
    pub fn of(alloc: Global, world: &'a World) -> Result<Parts<'a>, OutOfMemory>
        ensures { IfOk result (λ parts. parts ≡ world.entry.now) }
    {
        let common = world.world_keys(alloc)?;
        let principals = principal_parts(alloc, world)?;
        let resources = resource_parts(alloc, world)?;
        Ok(Parts {
            world,
            common,
            principals,
            resources,
        })
    }

    /// The context of the requests of principal p for resource r, which these derived keys complete. It takes no memory.
    pub fn context<'c>(&'c self, p: u64, r: u64, derived: &'c Derived) -> Context<'c>
        requires principal { p < length self.now.principals }
        requires resource { r < length self.now.resources }
        ensures { IsContextAt self.now p r derived.entry.now.items result }
    {
        let principal = &self.principals[p as usize];
        let resource = &self.resources[r as usize];
        self.world
            .context_with(p, r, &self.common, principal, resource, derived)
    }
}

/// The keys of each principal.
fn principal_parts<'a>(alloc: Global, world: &'a World) -> Result<Vec<Sought<'a>>, OutOfMemory>
    ensures count { IfOk result (λ parts. length parts.items ≡ length world.entry.now.principals) }
    ensures are { IfOk result (λ parts. AreAt (GivesPrincipal world.entry.now) parts.items) }
{
    let mut parts = Vec::with_capacity(alloc, world.principals() as usize)?;
    for p in 0..world.principals() {
        let keys = world.principal_keys(alloc, p)?;
        parts.push(keys)?;
    }
    Ok(parts)
}

/// The keys of each resource.
fn resource_parts<'a>(alloc: Global, world: &'a World) -> Result<Vec<Sought<'a>>, OutOfMemory>
    ensures count { IfOk result (λ parts. length parts.items ≡ length world.entry.now.resources) }
    ensures are { IfOk result (λ parts. AreAt (GivesResource world.entry.now) parts.items) }
{
    let mut parts = Vec::with_capacity(alloc, world.resources() as usize)?;
    for r in 0..world.resources() {
        let keys = world.resource_keys(alloc, r)?;
        parts.push(keys)?;
    }
    Ok(parts)
}
