// Whether two action elements are the same, and two patterns, sign by sign.
ghost use Rattle.std.specs.Prelude.{◌≡◌, ◌↔◌, IsTrue};
ghost use Rattle.iam_glob.specs.Signs.{signs_in};

use iam_element::Actions;
use iam_glob::{Glob, Signs};

/// Whether both action elements are the same.
pub fn are_same_actions(one: &Actions, other: &Actions) -> bool
    ensures { IsTrue result ↔ one.now ≡ other.now }
{
    one.is_negated() == other.is_negated() && are_same_patterns(one.patterns(), other.patterns())
}

/// Whether both lists have the same patterns in the same order.
fn are_same_patterns(ones: &[Glob], others: &[Glob]) -> bool
    ensures { IsTrue result ↔ ones.now ≡ others.now }
{
    if ones.len() != others.len() {
        return false;
    }
    for i in 0..ones.len() {
        if !is_same_pattern(&ones[i], &others[i]) {
            return false;
        }
    }
    true
}

/// Whether both patterns have the same signs, however each is kept.
pub fn is_same_pattern(one: &Glob, other: &Glob) -> bool
    ensures { IsTrue result ↔ one.now ≡ other.now }
{
    one.is_same(other) || are_same_signs(one.signs(), other.signs())
}

fn are_same_signs(ones: Signs<'_>, others: Signs<'_>) -> bool
    ensures { IsTrue result ↔ signs_in ones.entry ≡ signs_in others.entry }
{
    if ones.len() != others.len() {
        return false;
    }
    for i in 0..ones.len() {
        if ones.at(i) != others.at(i) {
            return false;
        }
    }
    true
}
