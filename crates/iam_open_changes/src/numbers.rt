// A request of two worlds, by its numbers in each.
ghost use Rattle.std.specs.Prelude.{IfSome};
ghost use Rattle.std.proofs.Props.{props};
ghost use Rattle.iam_open_changes.specs.InBoth.{AreBelow};

use iam_layers::World;

/// The numbers of the principal, the action and the resource of a request in a world.
#[derive(Clone, Copy, Debug, PartialEq, Eq)]
pub struct Numbers {
    pub principal: u64,
    pub action: u64,
    pub resource: u64,
}

/// A request of two worlds: its numbers in each, where that world has it.
#[derive(Clone, Copy)]
pub struct Both<'a> {
    pub before: &'a World,
    pub after: &'a World,
    pub was: Option<Numbers>,
    pub now: Option<Numbers>,
    ghost was_there: { IfSome was (AreBelow before.now) } by { Prim.hlevel props },
    ghost now_there: { IfSome now (AreBelow after.now) } by { Prim.hlevel props },
}
