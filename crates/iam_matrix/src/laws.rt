// That a world has one matrix, and one report of it.
ghost use Rattle.iam_layers.specs.Cell.{IsDecisionOf, IsVerdictOf};
ghost use Rattle.iam_matrix.specs.Laws.{OneFirst, OneFirstReport, OneMatrix, OneReport};

use iam_layers::{one_decision_at, one_triple, one_verdict_at};
use iam_row::{one_row, one_text};

/// A world has at most one matrix: one list of verdicts, each with its deciding statements and its lacks.
pub fn one_matrix()
    ensures { OneMatrix IsVerdictOf }
{
    one_verdict_at()
}

/// A world has at most one list of the decisions of all cells.
pub fn one_brief_matrix()
    ensures { OneMatrix IsDecisionOf }
{
    one_decision_at()
}

/// A world has at most one first allowed cell, and none where it has no allowed cell.
pub fn one_first()
    ensures { OneFirst }
{
    one_decision_at()
}

/// A world has at most one report of its matrix in a format, in full or in brief, and at most one of its first allowed cell.
pub fn one_report()
    ensures matrix { OneReport }
    ensures first { OneFirstReport }
{
    one_matrix();
    one_brief_matrix();
    one_first();
    one_triple();
    one_text();
    one_row()
}
