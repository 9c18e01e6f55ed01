// That requests have one report, and what it has in common with that of the matrix.
ghost use Rattle.iam_ask.specs.Laws.{AllCellsGiveTheMatrix, DecidesAsItsCell, JudgesAsItsCell, OneAskReport};

use iam_layers::{no_keys_change_nothing, one_own_decision, one_own_verdict, one_triple};

/// Requests have at most one report in a format, in full or in brief.
pub fn one_ask_report()
    ensures { OneAskReport }
{
    one_own_verdict();
    one_own_decision();
}

/// A request that gives no keys of its own has the verdict of its cell, and its decision.
pub fn without_keys_as_its_cell()
    ensures verdict { JudgesAsItsCell }
    ensures decision { DecidesAsItsCell }
{
    no_keys_change_nothing();
    one_triple();
}

/// The report of requests for all cells in their order, which give no keys of their own, is that of the matrix.
pub fn all_cells_give_the_matrix()
    ensures { AllCellsGiveTheMatrix }
{
    one_triple();
    without_keys_as_its_cell();
}
