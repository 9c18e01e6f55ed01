// That there is one list of rows, and one report, and what follows where no row tells a request.
ghost use Rattle.iam_every_changes.specs.Laws.{SameAccessWithoutARow};
ghost use Rattle.iam_every_changes.specs.Made.{OneListOfChanges};
ghost use Rattle.iam_every_changes.specs.Report.{NoReportTooLong, OneEveryChangesReport};

use iam_every::one_list_of_groups;
use iam_kinds::{one_list_of_kinds, one_list_of_kinds_fold};
use iam_layers::{one_request, one_verdict_at};

/// A principal has one list of rows that tell where its access differs.
///
/// AWS IAM User Guide, "Policy evaluation logic".
pub fn one_list_of_changes()
    ensures { OneListOfChanges }
{
    one_request();
    one_verdict_at();
    one_list_of_kinds();
    one_list_of_kinds_fold();
    one_list_of_groups()
}

/// A request that is meant and that no row tells has the same access in both states.
///
/// AWS IAM User Guide, "Policy evaluation logic".
pub fn same_access_without_a_row()
    ensures { SameAccessWithoutARow }
{}

/// Two worlds have one report on principals whose access is compared in them, and none where it would be too long.
///
/// AWS IAM User Guide, "Policy evaluation logic".
pub fn one_every_changes_report()
    ensures one { OneEveryChangesReport }
    ensures long { NoReportTooLong }
{
    one_list_of_changes()
}
