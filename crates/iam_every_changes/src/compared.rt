// Two worlds, and the principals whose access is compared in them.
ghost use Rattle.std.specs.Prelude.{◌≡◌};
ghost use Rattle.iam_every_changes.specs.Compared.{both_at, compared_of, who_of};
ghost use Rattle.iam_every_changes.specs.States.{both_of};

use crate::states::{Both, State};
use iam_every::Asked;

/// What is asked of all names in the worlds before and after.
#[derive(Clone, Copy)]
pub struct Compared<'a> {
    pub before: Asked<'a>,
    pub after: Asked<'a>,
}

/// A principal: its text in reports, and its number in each of the worlds, if it is there.
#[derive(Clone, Copy)]
pub struct Who<'a> {
    pub text: &'a str,
    pub before: Option<u64>,
    pub after: Option<u64>,
}

/// The states of the principal.
pub fn both_at<'a>(compared: Compared<'a>, who: Who<'_>) -> Both<'a>
    ensures { both_of result ≡ both_at (compared_of compared.entry) (who_of who.entry) }
{
    Both {
        before: State {
            asked: compared.before,
            principal: who.before,
        },
        after: State {
            asked: compared.after,
            principal: who.after,
        },
    }
}
