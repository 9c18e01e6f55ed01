// Whether two lists of statements are the same, with the places where these stand.
ghost use Rattle.std.specs.Prelude.{◌≡◌, IsTrue, map};
ghost use Rattle.iam_decision.specs.Code.Scan.{placed_value};

use crate::prints::print;
use crate::statement::are_equal;
use iam_decision::Standing;

/// `true` only where both lists have the same statements at the same places, in the same order; `false` says nothing.
pub fn are_all_equal(ones: &[Standing<'_>], others: &[Standing<'_>]) -> bool
    ensures { IsTrue result → map placed_value ones.now ≡ map placed_value others.now }
{
    if ones.len() != others.len() {
        return false;
    }
    for i in 0..ones.len() {
        if !is_same(ones[i], others[i]) {
            return false;
        }
    }
    true
}

fn is_same(one: Standing<'_>, other: Standing<'_>) -> bool
    ensures { IsTrue result → placed_value one.entry ≡ placed_value other.entry }
{
    one.place == other.place && are_equal(one.statement, other.statement)
}

/// A number that tells most such lists apart. Nothing is claimed of it.
pub fn print_all(statements: &[Standing<'_>]) -> u64 {
    let mut before: u64 = 0;
    for standing in statements {
        before = standing.place.print(before ^ print(standing.statement));
    }
    before
}
