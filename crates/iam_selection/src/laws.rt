// That there is one report of what is asked of a world, that its rows are rows of the report of all, that asking nothing gives
// that report, and that each text has a pattern of its own.
ghost use Rattle.iam_selection.specs.Laws.{EachStandsInAll, EachTextIsNamed, NothingSelectsAll, NothingSelectsFirst, OneFirstSelectedReport, OneSelectedReport, ReadsAsPolicies};

use iam_layers::{one_decision_at, one_triple, one_verdict_at};
use iam_row::one_row;

/// A world has at most one report of what a selection asks for in a format, in full or in brief, and at most one of the first
/// cell that is selected and allowed.
pub fn one_selected_report()
    ensures listing { OneSelectedReport }
    ensures first { OneFirstSelectedReport }
{
    one_verdict_at();
    one_decision_at();
    one_triple();
    one_row()
}

/// The row of a cell is the same whatever the selection: the one that stands in the report of all cells.
pub fn each_stands_in_all()
    ensures { EachStandsInAll }
{
    one_verdict_at();
    one_decision_at()
}

/// A selection that says nothing gives the report of all cells, and the first of all that are allowed.
pub fn nothing_selects_all()
    ensures listing { NothingSelectsAll }
    ensures first { NothingSelectsFirst }
{
    one_triple()
}

/// Each text, with a `\` before each `*`, `?` and `\`, is a pattern that it alone matches.
pub fn each_text_is_named()
    ensures { EachTextIsNamed }
{}

/// A pattern without a `\` is read as those of policies are.
pub fn reads_as_policies()
    ensures { ReadsAsPolicies }
{}
