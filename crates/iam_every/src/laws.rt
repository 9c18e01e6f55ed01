// That decisions tell apart no more than their statements do, and that there is one answer.
ghost use Rattle.iam_every.specs.Alike.{AlikeActionsDecideAlike, AlikeTextsDecideAlike};
ghost use Rattle.iam_every.specs.Every.{OneListOfActionGroupsAt};
ghost use Rattle.iam_every.specs.NamedCell.{NamedDecisionsAreOfCells, NamedVerdictsAreOfCells};
ghost use Rattle.iam_every.specs.Names.{AlikeActionsAtDecideAlike, AlikeNamesDecideAlike};
ghost use Rattle.iam_every.specs.OwnActions.{OneListOfActionGroups, OwnActionGroupsAreGroups};
ghost use Rattle.iam_every.specs.OwnGroups.{OneListOfGroups, OneListOfGroupsAt, OwnGroupsAreGroups};
ghost use Rattle.iam_every.specs.Report.{NoReportTooLong, OneEveryReport};
ghost use Rattle.iam_every.specs.Rows.{OneListOfRows};

use iam_kinds::{one_list_of_kinds, one_list_of_kinds_fold};
use iam_layers::{one_request, one_verdict_at};

/// Requests of one principal for one action on resources of which the same is said are decided alike where their texts are alike:
/// where every group of statements that concern the request matches both or neither.
///
/// AWS IAM User Guide, "IAM JSON policy elements: Resource" and "NotResource".
pub fn alike_texts_decide_alike()
    ensures { AlikeTextsDecideAlike }
{}

/// Requests for actions that the same action elements match are decided alike.
///
/// AWS IAM User Guide, "IAM JSON policy elements: Action" and "NotAction".
pub fn alike_actions_decide_alike()
    ensures { AlikeActionsDecideAlike }
{}

/// On requests of one principal for one action on resources that the world does not name, texts on which such groups agree are
/// decided alike.
///
/// AWS IAM User Guide, "Policy evaluation logic".
pub fn alike_names_decide_alike()
    ensures { AlikeNamesDecideAlike }
{}

/// On requests of one principal for resources that the world does not name, actions on which the groups of action elements agree
/// are decided alike, on each such resource.
///
/// AWS IAM User Guide, "IAM JSON policy elements: Action" and "NotAction".
pub fn alike_actions_at_decide_alike()
    ensures { AlikeActionsAtDecideAlike }
{}

/// The own groups of a request tell apart just what decisions on it do, and those of policies just what their action elements do.
///
/// AWS IAM User Guide, "IAM JSON policy elements: Resource", "NotResource", "Action" and "NotAction".
pub fn own_groups_tell_apart()
    ensures texts { OwnGroupsAreGroups }
    ensures actions { OwnActionGroupsAreGroups }
{}

/// A request has one list of own groups, also on resources of which the same is said, and so have policies, also those that apply
/// where a principal asks.
///
/// AWS IAM User Guide, "IAM JSON policy elements: Resource", "NotResource", "Action" and "NotAction".
pub fn one_list_of_groups()
    ensures texts { OneListOfGroups }
    ensures texts_at { OneListOfGroupsAt }
    ensures actions { OneListOfActionGroups }
    ensures actions_at { OneListOfActionGroupsAt }
{
    one_request()
}

/// A principal has one list of rows.
///
/// AWS IAM User Guide, "Policy evaluation logic".
pub fn one_list_of_rows()
    ensures { OneListOfRows }
{
    one_request();
    one_verdict_at();
    one_list_of_kinds();
    one_list_of_kinds_fold()
}

/// There is one report in a format, in full or in brief, of what is asked of all names, and none where it would have too many rows.
///
/// AWS IAM User Guide, "Policy evaluation logic".
pub fn one_every_report()
    ensures one { OneEveryReport }
    ensures none { NoReportTooLong }
{
    one_request();
    one_verdict_at();
    one_list_of_kinds();
    one_list_of_kinds_fold()
}

/// A request for a resource of the world by its own text, for an action of the world, has the verdict and the decision of its cell.
///
/// AWS IAM User Guide, "Policy evaluation logic".
pub fn named_resources_have_their_cells()
    ensures verdicts { NamedVerdictsAreOfCells }
    ensures decisions { NamedDecisionsAreOfCells }
{}
