// What is decided of up to 64 actions.
ghost use Rattle.std.specs.Prelude.{◌≡◌, ◌↔◌, ◌<◌, ◌+◌, IsTrue, ℕ, Bool, List};
ghost use Rattle.std.specs.Int.{bit_at};

use iam_decision::Decision;

/// What is decided of 64 actions, a bit for each.
#[derive(Clone, Copy, Debug, PartialEq, Eq)]
pub struct Decided {
    /// Those that a statement denies.
    pub denied: u64,
    /// Those that all allow that have to, whatever denies them.
    pub allowed: u64,
}

impl Decided {
    ghost use Rattle.std.specs.Borrow.{Bor};
    ghost use Rattle.iam_decision.specs.Code.Found.{AllowsIn, DeniesIn, GrantsIn};
    ghost use Rattle.iam_decision.specs.Decision.{IsDecided};
    ghost use Rattle.iam_decision.specs.declared.frame.Frame.{Frame};
    ghost use Rattle.iam_decision.specs.declared.living.Matched.{Matched};
    ghost use Rattle.iam_classes.specs.Batch.{AreDecided, AreFoundIn};

    /// The decision on the action with this number among them.
    ///
    /// AWS IAM User Guide, "Policy evaluation logic".
    pub fn at(self, k: u32) -> Decision
        requires { k < 64 }
        ensures { (frame : Frame) (statements : List Matched) (rows : List (Bor (List Bool))) (from count : ℕ)
            → (found : List Matched) → AreDecided frame statements rows from count self → k < count
            → AreFoundIn statements rows (from + k) found
            → IsDecided (DeniesIn found) (AllowsIn found) (GrantsIn found) frame result }
    {
        if has(self.denied, k) {
            Decision::ExplicitDeny
        } else if has(self.allowed, k) {
            Decision::Allowed
        } else {
            Decision::ImplicitDeny
        }
    }
}

/// Whether the word has bit k.
fn has(word: u64, k: u32) -> bool
    requires { k < 64 }
    ensures { IsTrue result ↔ (bit_at word k ≡ 1) }
{
    word >> k & 1 == 1
}
