// The context of a request that gives keys of its own, which are known to be clean.
ghost use Rattle.std.specs.Prelude.{◌<◌, IfOk, length};
ghost use Rattle.iam_layers.specs.Own.{IsCleanAt, IsOwnContext};

use iam_context::{ContextFault, Part};
use iam_layers::{Context, Derived, World};
use iam_text::OutOfMemory;
use std::alloc::Global;

/// The context of a request of principal p for resource r, each below the number of its kind, with these keys of its own and these
/// derived ones.
pub fn own_context<'a>(
    alloc: Global,
    world: &'a World,
    p: u64,
    r: u64,
    own: &'a Part,
    derived: &'a Derived,
) -> Result<Context<'a>, OutOfMemory>
    requires principal { p < length world.now.principals }
    requires resource { r < length world.now.resources }
    requires clean { IsCleanAt world.now p r own.now.items }
    ensures { IfOk result (IsOwnContext world.entry.now p r own.entry.now.items derived.entry.now.items) }
{
    match world.own_context(alloc, p, r, own, derived) {
        Ok(context) => Ok(context),
        Err(ContextFault::OutOfMemory) => Err(OutOfMemory),
        Err(_) => unreachable!(),
    }
}
