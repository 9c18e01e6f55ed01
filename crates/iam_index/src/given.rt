// The keys that resources give, and which conditions ask for none of them.
ghost use Rattle.std.specs.Prelude.{IfSome, IsTrue};
ghost use Rattle.iam_unasked.specs.Names.{HasNames};
ghost use Rattle.iam_world.specs.World.{WorldValue};
ghost use Rattle.iam_index.specs.Given.{IsFree, given_keys};

use iam_layers::World;
use iam_unasked::{Names, Statement, asks_for};
use std::alloc::Global;

/// The keys that the resources of a world give to requests for them; `None` where they are many, or there is no memory for them.
pub fn given_keys<'a>(alloc: Global, world: &'a World) -> Option<Names<'a>>
    ensures { IfSome result (λ keys. HasNames keys (given_keys world.entry.now)) }
{
    let mut keys = Names::new(alloc);
    for r in 0..world.resources() {
        keys.add(world.resource_part(r))?;
    }
    Some(keys)
}

/// Whether the conditions of the statement are known to ask for none of the keys, where these are known.
pub fn is_free<'a>(statement: &'a Statement, given: Option<&Names<'a>>) -> bool
    ensures { (world : WorldValue) → IfSome given.entry (λ keys. HasNames keys.now (given_keys world)) → IsTrue result
        → IsFree world statement.now }
{
    match given {
        Some(keys) => !asks_for(statement, keys),
        None => false,
    }
}
