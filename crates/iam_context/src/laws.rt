// Laws about the definitions, for the crates above.
ghost use Rattle.std.specs.Prelude.{◌≡◌, ℕ, List, Option};
ghost use Rattle.iam_context.specs.Requester.{RequesterValue, IsRequesterOf};

use iam_text::one_arn;

/// An ARN, with or without the name of a session, is that of one requester at most.
pub fn one_requester()
    ensures { (arn : List ℕ) (session : Option (List ℕ)) (r other : RequesterValue)
        → IsRequesterOf arn session r → IsRequesterOf arn session other → r ≡ other }
{
    one_arn()
}
