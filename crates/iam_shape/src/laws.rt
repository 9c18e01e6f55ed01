// Laws of the definitions, for the crates above.
ghost use Rattle.std.specs.Prelude.{◌≡◌, ◌≤◌, ℕ, List, Some, length};
ghost use Rattle.serde_json.specs.Data.{Data};
ghost use Rattle.serde_json.specs.Read.{read};
ghost use Rattle.iam_shape.specs.Few.{HasFewLists};
ghost use Rattle.iam_shape.specs.View.{IsView, WorldViewValue};

use iam_json::{item_is_smaller, list_is_small, member_is_smaller, read_is_small};

/// A document says at most one thing.
#[tactic(auto, using(crate::proofs::OneView::one_view))]
pub fn one_view()
    ensures { (d : Data) (world other : WorldViewValue) → IsView d world → IsView d other → world ≡ other }
{}

/// The lists of a document that is not too large have numbers of 32 bits.
pub fn few_documents()
    ensures { (bytes : List ℕ) (d : Data) (world : WorldViewValue)
        → length bytes ≤ 8388608 → read bytes ≡ Some d → IsView d world → HasFewLists world }
{
    read_is_small();
    list_is_small();
    member_is_smaller();
    item_is_smaller()
}
