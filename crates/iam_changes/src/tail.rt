// The tails of rows of changes.
ghost use Rattle.std.specs.Prelude.{◌≡◌, IfOk};
ghost use Rattle.iam_changes.specs.Code.Pieces.{pair_tail};

use crate::pair::Pair;
use iam_row::{Format, Tail, change_tail, kind_of};
use iam_text::OutOfMemory;
use std::alloc::Global;

/// The tail of the row of a change with this pair, or in brief of its decisions alone.
pub fn tail_of(alloc: Global, format: Format, brief: bool, pair: &Pair) -> Result<Tail, OutOfMemory>
    ensures { IfOk result (λ tail. tail ≡ pair_tail format brief pair.now) }
{
    let change = kind_of(pair.before.as_ref(), pair.after.as_ref());
    change_tail(
        alloc,
        format,
        brief,
        Some(change),
        &pair.before,
        &pair.after,
    )
}
