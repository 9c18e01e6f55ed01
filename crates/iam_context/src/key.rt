// Keys without regard to the case of ASCII letters.
ghost use Rattle.std.specs.Prelude.{◌≡◌, refl};
ghost use Rattle.std.specs.Cmp;
ghost use Rattle.std.specs.Cmp.{eq_by_cmp_equiv, partial_order_from_total};
ghost use Rattle.std.specs.Cmp.Lexicographic.{slice_cmp, on_texts};
ghost use Rattle.std.specs.Ordering.{nat_cmp, on, as_partial_cmp, eq_by_cmp};
ghost use Rattle.iam_context.specs.Order.{backwards};

use std::cmp::Ordering;

/// A key of a context. Two keys that differ in the case of ASCII letters alone are equal.
#[derive(Clone, Copy, Debug)]
pub struct Key<'a>(pub &'a str);

/// The order of two texts once the letters A to Z of both are folded, read from their ends: keys of one context mostly begin
/// alike, and differ in their last characters.
fn folded_cmp(left: &[u8], right: &[u8]) -> Ordering
    ensures { result ≡ slice_cmp nat_cmp (backwards left.now) (backwards right.now) }
{
    let mut left = left;
    let mut right = right;
    loop {
        match (left.split_last(), right.split_last()) {
            (Some((one, before)), Some((other, before_other))) => {
                let order = one.to_ascii_lowercase().cmp(&other.to_ascii_lowercase());
                if order != Ordering::Equal {
                    return order;
                }
                left = before;
                right = before_other;
            }
            (Some(_), None) => return Ordering::Greater,
            (None, Some(_)) => return Ordering::Less,
            (None, None) => return Ordering::Equal,
        }
    }
}

impl PartialEq for Key<'_> {
    ghost eq = { eq_by_cmp (on (λ k. backwards k.0.now) (slice_cmp nat_cmp)) };

    ghost laws = { Cmp.partial_equiv_from_equiv (eq_by_cmp_equiv (on_texts (λ k. backwards k.0.now))) };

    fn eq(&self, other: &Self) -> bool {
        self.cmp(other) == Ordering::Equal
    }
}

impl Eq for Key<'_> {
    ghost laws = { eq_by_cmp_equiv (on_texts (λ k. backwards k.0.now)) };
}

impl PartialOrd for Key<'_> {
    ghost partial_cmp = { as_partial_cmp (on (λ k. backwards k.0.now) (slice_cmp nat_cmp)) };

    ghost laws = { partial_order_from_total (on_texts (λ k. backwards k.0.now)) };

    fn partial_cmp(&self, other: &Self) -> Option<Ordering> {
        Some(self.cmp(other))
    }
}

impl Ord for Key<'_> {
    ghost cmp = { on (λ k. backwards k.0.now) (slice_cmp nat_cmp) };

    ghost total = { on_texts (λ k. backwards k.0.now) };

    ghost matches_partial_cmp = { λ x y. refl };

    ghost matches_eq = { λ x y. refl };

    fn cmp(&self, other: &Self) -> Ordering {
        folded_cmp(self.0.as_bytes(), other.0.as_bytes())
    }
}
