// Whether two principal elements are the same.
ghost use Rattle.std.specs.Prelude.{◌≡◌, ◌↔◌, IsTrue};
ghost use Rattle.std.specs.Option.{option_copied};

use iam_element::{PrincipalName, Principals};

/// Whether both elements are the same, or neither stands there.
pub fn are_same_principals(one: Option<&Principals>, other: Option<&Principals>) -> bool
    ensures { IsTrue result ↔ option_copied one.entry ≡ option_copied other.entry }
{
    match (one, other) {
        (None, None) => true,
        (Some(one), Some(other)) => is_same_element(one, other),
        _ => false,
    }
}

fn is_same_element(one: &Principals, other: &Principals) -> bool
    ensures { IsTrue result ↔ one.now ≡ other.now }
{
    one.is_negated() == other.is_negated() && are_same_names(one.names(), other.names())
}

/// Whether both lists have the same names in the same order.
fn are_same_names(ones: &[PrincipalName], others: &[PrincipalName]) -> bool
    ensures { IsTrue result ↔ ones.now ≡ others.now }
{
    if ones.len() != others.len() {
        return false;
    }
    for i in 0..ones.len() {
        if !is_same_name(&ones[i], &others[i]) {
            return false;
        }
    }
    true
}

fn is_same_name(one: &PrincipalName, other: &PrincipalName) -> bool
    ensures { IsTrue result ↔ one.now ≡ other.now }
{
    one.kind() == other.kind() && one.text() == other.text()
}
