// Each member of a list once.
ghost use Rattle.std.specs.Prelude.{◌≡◌, ◌↔◌, [], Contains, IfOk, IsTrue, map};
ghost use Rattle.iam_every.specs.Groups.{groups_of, signs_of};
ghost use Rattle.iam_every.specs.OwnGroups.{AreFirsts};

use iam_every::{Pattern, are_same};
use iam_match::OutOfMemory;
use std::alloc::Global;
use std::collections::HashSet;

/// Those of the texts that do not stand before, in order.
pub fn distinct_texts<'a>(alloc: Global, texts: &[&'a str]) -> Result<Vec<&'a str>, OutOfMemory>
    ensures { IfOk result (λ firsts. AreFirsts [] (map (λ text. text.now) texts.now) (map (λ text. text.now) firsts.items)) }
{
    let mut seen = HashSet::new(alloc);
    let mut firsts = Vec::new(alloc);
    for text in texts {
        if seen.insert(*text)? {
            firsts.push(*text)?;
        }
    }
    Ok(firsts)
}

/// Those of the groups that do not stand before, in order.
pub fn distinct_groups<'c>(
    alloc: Global,
    groups: Vec<Vec<Pattern<'c>>>,
) -> Result<Vec<Vec<Pattern<'c>>>, OutOfMemory>
    ensures { IfOk result (λ firsts. AreFirsts [] (groups_of groups.entry.items) (groups_of firsts.items)) }
{
    let mut firsts = Vec::new(alloc);
    for group in groups {
        if !is_among(firsts.as_slice(), group.as_slice()) {
            firsts.push(group)?;
        }
    }
    Ok(firsts)
}

/// Whether the group is one of these.
fn is_among(groups: &[Vec<Pattern<'_>>], group: &[Pattern<'_>]) -> bool
    ensures { IsTrue result ↔ Contains (groups_of groups.now) (map signs_of group.now) }
{
    for other in groups {
        if have_same(other.as_slice(), group) {
            return true;
        }
    }
    false
}

/// Whether both have the same patterns in the same order.
fn have_same(ones: &[Pattern<'_>], others: &[Pattern<'_>]) -> bool
    ensures { IsTrue result ↔ map signs_of ones.now ≡ map signs_of others.now }
{
    if ones.len() != others.len() {
        return false;
    }
    for i in 0..ones.len() {
        if !are_same(ones[i].signs(), others[i].signs()) {
            return false;
        }
    }
    true
}
