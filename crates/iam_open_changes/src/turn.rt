// What may become of a request.
ghost use Rattle.std.specs.Prelude.{IsTrue, option_map};
ghost use Rattle.iam_open_changes.specs.Told.{AreTurned};

use iam_layers::Verdict;
use iam_row::is_allowed;

/// What may become of a request from one world to another.
#[derive(Clone, Copy, Debug, PartialEq, Eq)]
pub enum Turn {
    /// It is allowed in the world after alone.
    Gained,
    /// It is allowed in the world before alone.
    Lost,
}

/// `true` only where this becomes of a request by these verdicts.
pub fn is_turned(turn: Turn, before: &Option<Verdict>, after: &Option<Verdict>) -> bool
    ensures { IsTrue result → AreTurned turn before.now after.now }
{
    match turn {
        Turn::Gained => !is_allowed(before.as_ref()) && is_allowed(after.as_ref()),
        Turn::Lost => is_allowed(before.as_ref()) && !is_allowed(after.as_ref()),
    }
}
