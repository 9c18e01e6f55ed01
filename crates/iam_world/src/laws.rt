// Laws of the definitions, for the crates above.
ghost use Rattle.std.specs.Prelude.{◌≡◌, ℕ, List};
ghost use Rattle.iam_world.specs.Reads.{IsWorld};
ghost use Rattle.iam_world.specs.World.{WorldValue};
ghost use Rattle.iam_world.specs.WorldFault.{IsFirstWorldFault};
ghost use Rattle.iam_world.specs.declared.fault.WorldFault.{WorldFault};

use iam_context::one_requester;
use iam_policy::{one_least_fault, one_policy};
use iam_shape::one_view;

/// Bytes are those of at most one world.
pub fn one_world()
    ensures { (bytes : List ℕ) (world other : WorldValue)
        → IsWorld bytes world → IsWorld bytes other → world ≡ other }
{
    one_view();
    one_requester();
    one_policy()
}

/// Bytes have at most one first fault.
pub fn one_first_fault()
    ensures { (bytes : List ℕ) (fault other : WorldFault)
        → IsFirstWorldFault bytes fault → IsFirstWorldFault bytes other → fault ≡ other }
{
    one_view();
    one_least_fault()
}

/// The bytes of a world have no first fault.
pub fn no_world_and_fault()
    ensures { (bytes : List ℕ) (world : WorldValue) (fault : WorldFault)
        → IsWorld bytes world → ¬ IsFirstWorldFault bytes fault }
{}
