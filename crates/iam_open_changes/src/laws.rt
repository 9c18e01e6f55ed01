// What follows from what is told.
ghost use Rattle.iam_open_changes.specs.Laws.{NeverIsNotShown, NoMoreIsAllowed, NoMoreIsNotTurned, SameAccess, ShownIsTurned};

use iam_decision::one_decision;
use iam_value::one_stamp;

/// An example is one: in its context the request is gained, or lost, as it says.
pub fn shown_is_turned()
    ensures { ShownIsTurned }
{}

/// Of what is told not to be gained, or lost, in any of the contexts in question, there is no example.
pub fn never_is_not_shown()
    ensures { NeverIsNotShown }
{
    shown_is_turned()
}

/// Both worlds decide a request with the same access alike in each of the contexts in question.
pub fn same_access()
    ensures { SameAccess }
{
    one_decision();
    one_stamp()
}

/// What the first of two worlds allows in a context in question the second allows too, where the first has no allow that may match and
/// that the second lacks, and the second no deny that the first lacks.
pub fn no_more_is_allowed()
    ensures { NoMoreIsAllowed }
{
    one_decision();
    one_stamp()
}

/// So a request is not lost where the world before allows no more, nor gained where the world after does not.
pub fn no_more_is_not_turned()
    ensures { NoMoreIsNotTurned }
{
    no_more_is_allowed()
}
