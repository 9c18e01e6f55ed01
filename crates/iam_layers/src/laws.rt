// What follows from which policies apply to a request, and that a request has one answer.
ghost use Rattle.iam_layers.specs.Code.Statements.{RequestersKeepTheirs, ResourcesKeepTheirs};
ghost use Rattle.iam_layers.specs.Laws.{ManagementIsNotBound, NoKeysChangeNoDecision, NoKeysChangeNoVerdict, OneDecisionAt, OneDecisionOf, OneOwnDecision, OneOwnVerdict, OneRequest, OneTriple, OneVerdictAt, OneVerdictOf, SomeTriple};

use iam_decision::{one_decision, one_verdict};
use iam_value::one_stamp;

/// Whatever the organisation policies of a management account are, and the resource control policies of its resources, they
/// change no verdict.
///
/// AWS Organizations User Guide, "Service control policies" and "Resource control policies": they affect neither the users and
/// roles of the management account nor its resources.
pub fn management_is_not_bound()
    ensures { ManagementIsNotBound }
{}

/// A principal, an action and a resource of a world make one request, whose context is determined, also by the moment as it is
/// written, and the policies that apply to it are determined.
pub fn one_request()
    ensures { OneRequest }
{
    one_stamp()
}

/// Each number below that of all cells is the cell of one principal, one action and one resource.
pub fn one_triple()
    ensures some { SomeTriple }
    ensures one { OneTriple }
{}

/// A request of a world, and so a cell, has at most one verdict, wholly.
pub fn one_verdict_at()
    ensures request { OneVerdictAt }
    ensures cell { OneVerdictOf }
{
    one_verdict();
    one_request();
    one_triple()
}

/// A request of a world, and so a cell, has at most one decision.
pub fn one_decision_at()
    ensures request { OneDecisionAt }
    ensures cell { OneDecisionOf }
{
    one_decision();
    one_request();
    one_triple()
}

/// The statements of the organisation and of the requester are the same whatever it asks for, and those that stand with a
/// resource are the same whoever asks.
pub fn statements_are_kept()
    ensures requesters { RequestersKeepTheirs }
    ensures resources { ResourcesKeepTheirs }
{}

/// A request that gives no keys of its own is that of its principal, action and resource.
pub fn no_keys_change_nothing()
    ensures verdict { NoKeysChangeNoVerdict }
    ensures decision { NoKeysChangeNoDecision }
{}

/// A request that gives keys of its own has at most one verdict, wholly.
pub fn one_own_verdict()
    ensures { OneOwnVerdict }
{
    one_verdict_at()
}

/// A request that gives keys of its own has at most one decision.
pub fn one_own_decision()
    ensures { OneOwnDecision }
{
    one_decision_at()
}
