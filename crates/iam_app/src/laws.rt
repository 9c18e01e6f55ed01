// That what a run writes is determined by its input and by what the options ask for.
ghost use Rattle.iam_app.specs.ChangesLaws.{OneChangesBeginning, OneChangesEnd, OneChangesOutput};
ghost use Rattle.iam_app.specs.Laws.{OneBeginning, OneEnd, OneOutput, OneSelectedBeginning, OneSelectedEnd, OneSelectedOutput};

use iam_changes::{one_changes, one_twice};
use iam_layers::one_verdict_at;
use iam_matrix::one_report;
use iam_row::one_row;
use iam_selection::one_selected_report;
use iam_world::{no_world_and_fault, one_first_fault, one_world};

/// Of bytes there is one report, whatever the tile and the number of workers, and so there is of what a selection asks for. Two
/// runs on one input, both without a selection or both with the same one, with options that differ in these alone, end alike and
/// leave the same bytes, where neither ends because of a stream, for want of memory, or because of the tile or the number of
/// workers. What a run left that could not write is a beginning of what another one wrote.
pub fn one_output()
    ensures text { OneOutput }
    ensures ends { OneEnd }
    ensures beginning { OneBeginning }
    ensures selected { OneSelectedOutput }
    ensures selected_ends { OneSelectedEnd }
    ensures selected_beginning { OneSelectedBeginning }
{
    one_world();
    no_world_and_fault();
    one_first_fault();
    one_verdict_at();
    one_row();
    one_selected_report();
    one_report()
}

/// Of the bytes of two worlds there is one report of what has changed, and one answer which kinds of changes it has, whatever the
/// tile and the number of workers. Two runs on the same inputs, with options that differ in these alone, end alike and leave the
/// same bytes, where neither ends because of a stream, for want of memory, or because of the tile or the number of workers. What
/// a run left that could not write is a beginning of what another one wrote.
pub fn one_changes_output()
    ensures text { OneChangesOutput }
    ensures ends { OneChangesEnd }
    ensures beginning { OneChangesBeginning }
{
    one_world();
    no_world_and_fault();
    one_first_fault();
    one_twice();
    one_changes()
}
