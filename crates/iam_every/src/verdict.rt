// Verdicts on requests for resources that a world does not name.
ghost use Rattle.std.specs.Prelude.{ℕ, IfOk, List};
ghost use Rattle.iam_match.specs.Request.{access_of};
ghost use Rattle.iam_decision.specs.Applicable.{IsNumbered, value_of};
ghost use Rattle.iam_world.specs.World.{WorldValue};
ghost use Rattle.iam_layers.specs.Unnamed.{IsUnnamedAccess, IsUnnamedVerdict};
ghost use Rattle.iam_layers.specs.declared.unnamed.Unnamed.{Unnamed};

use iam_decision::{Applicable, Verdict};
use iam_match::{Access, OutOfMemory};
use std::alloc::Global;

/// The verdict on a request for the action by who asks for a resource that the world does not name, in the context of that request,
/// under these policies.
///
/// The lists of levels and each list of policies have to have fewer than 2^32 members.
///
/// AWS IAM User Guide, "Policy evaluation logic".
pub fn verdict_on<'a, 'c>(
    alloc: Global,
    applicable: &Applicable<'a>,
    access: Access<'_, 'c>,
    action: &str,
) -> Result<Verdict, OutOfMemory>
where
    'a: 'c,
    requires { IsNumbered (value_of applicable.now) }
    ensures { IfOk result (λ verdict. (world : WorldValue) (p : ℕ) (unnamed : Unnamed) (text : List ℕ)
        → IsUnnamedAccess world p unnamed action.now text (value_of applicable.now) (access_of access.entry)
        → IsUnnamedVerdict world p unnamed action.now text verdict) }
{
    let shared = applicable.shared(alloc, access)?;
    shared.verdict(alloc, action)
}
