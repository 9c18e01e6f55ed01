// That two worlds have one report of what has changed, and what follows from what a change is.
ghost use Rattle.iam_changes.specs.RequestLaws.{OneCount, OneRequests, OneTwice};
ghost use Rattle.iam_changes.specs.Laws.{EachChangeOnce, ExactlyTheChanges, GainedIsLost, NoChangesAgainstItself, OneChanges, OneChangesReport, SameAccess};

use iam_layers::{one_decision_at, one_triple, one_verdict_at};

/// Two worlds whose requests can be told apart have at most one list of the changes that are asked for, and at most one report of
/// them in a format, in full or in brief, with its kinds of changes.
pub fn one_changes()
    ensures list { OneChanges }
    ensures report { OneChangesReport }
{
    one_count();
    one_verdict_at();
    one_triple()
}

/// The changes are those of selected requests, and all of them.
pub fn exactly_the_changes()
    ensures { ExactlyTheChanges }
{
    one_verdict_at();
    one_triple()
}

/// No request stands in two rows.
pub fn each_change_once()
    ensures { EachChangeOnce }
{
    one_triple()
}

/// A world has no changes against itself.
pub fn no_changes_against_itself()
    ensures { NoChangesAgainstItself }
{
    one_verdict_at();
    one_triple()
}

/// What is gained from one world to another is lost the other way, and each row has its turned one there.
pub fn gained_is_lost()
    ensures { GainedIsLost }
{
    exactly_the_changes()
}

/// A selected request that stands in no row has the same access in both worlds.
pub fn same_access()
    ensures { SameAccess }
{
    one_verdict_at();
    one_decision_at();
    one_triple()
}

/// Two worlds have one list of requests, and so one number of them.
pub fn one_count()
    ensures list { OneRequests }
    ensures count { OneCount }
{
    one_triple()
}

/// A world has at most one first place at which a text stands again.
pub fn one_twice()
    ensures { OneTwice }
{}
