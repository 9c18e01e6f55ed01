// Laws of the definitions, for the crates above.
ghost use Rattle.std.specs.Prelude.{◌≡◌, ℕ, Option};
ghost use Rattle.serde_json.specs.Data.{Data};
ghost use Rattle.iam_policy.specs.declared.fault.Fault.{Fault};
ghost use Rattle.iam_policy.specs.declared.fault.Kind.{Kind};
ghost use Rattle.iam_policy.specs.Fault.{IsLeastFault};
ghost use Rattle.iam_policy.specs.Reading.{PolicyValue, Reads};

use iam_condition::one_condition;
use iam_text::one_draft;

/// A document has at most one least fault.
pub fn one_least_fault()
    ensures { (kind : Kind) (d : Data) (place place' : Option ℕ) (fault fault' : Fault)
        → IsLeastFault kind d place fault → IsLeastFault kind d place' fault' → (place ≡ place') × (fault ≡ fault') }
{}

/// A document is read as at most one policy.
pub fn one_policy()
    ensures { (kind : Kind) (d : Data) (policy policy' : PolicyValue)
        → Reads kind d policy → Reads kind d policy' → policy ≡ policy' }
{
    one_draft();
    one_condition();
}
