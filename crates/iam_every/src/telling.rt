// Which patterns tell apart texts that a line's pattern matches.
ghost use Rattle.std.specs.Prelude.{◌≡◌, ◌++◌, ◌∷◌, [], IfOk, OnOk, map};
ghost use Rattle.std.specs.List.{list_any};
ghost use Rattle.iam_glob.specs.Signs.{signs_in};
ghost use Rattle.iam_every.specs.Groups.{groups_of, signs_of};
ghost use Rattle.iam_every.specs.Telling.{are_apart, covers, differ, is_run, near, takes, telling, tells};

use crate::pattern::Pattern;
use iam_glob::{Sign, Signs};
use iam_match::OutOfMemory;
use std::alloc::Global;

/// Adds of each group the patterns that may match a text of the line's pattern, if they tell such texts apart.
pub fn add_groups<'a>(
    alloc: Global,
    lent: &mut Vec<Vec<Signs<'a>>>,
    groups: &'a [Vec<Pattern<'_>>],
    line: Signs<'_>,
) -> Result<(), OutOfMemory>
    ensures { OnOk result (map (λ g. map signs_in g.items) lent.new.items
        ≡ map (λ g. map signs_in g.items) lent.old.items ++ telling (signs_in line.entry) (groups_of groups.entry.now)) }
{
    for group in groups {
        let near = near_patterns(alloc, group, line)?;
        if tells(&near, line) {
            lent.push(near)?;
        }
    }
    Ok(())
}

/// Adds each pattern as a group of its own, if it tells such texts apart.
pub fn add_alone<'a>(
    alloc: Global,
    lent: &mut Vec<Vec<Signs<'a>>>,
    patterns: &[Signs<'a>],
    line: Signs<'_>,
) -> Result<(), OutOfMemory>
    ensures { OnOk result (map (λ g. map signs_in g.items) lent.new.items
        ≡ map (λ g. map signs_in g.items) lent.old.items
        ++ telling (signs_in line.entry) (map (λ pattern. pattern ∷ []) (map signs_in patterns.now))) }
{
    for &signs in patterns {
        if !are_apart(signs, line) && !covers(signs, line) {
            lent.push(alone(alloc, signs)?)?;
        }
    }
    Ok(())
}

fn alone<'a>(alloc: Global, signs: Signs<'a>) -> Result<Vec<Signs<'a>>, OutOfMemory>
    ensures { IfOk result (λ group. map signs_in group.items ≡ signs_in signs.entry ∷ []) }
{
    let mut group = Vec::with_capacity(alloc, 1)?;
    group.push(signs)?;
    Ok(group)
}

/// The signs of those of the patterns that may match a text of the line's pattern, lent.
fn near_patterns<'a>(
    alloc: Global,
    patterns: &'a [Pattern<'_>],
    line: Signs<'_>,
) -> Result<Vec<Signs<'a>>, OutOfMemory>
    ensures { IfOk result (λ lent. map signs_in lent.items ≡ near (signs_in line.entry) (map signs_of patterns.entry.now)) }
{
    let mut lent = Vec::with_capacity(alloc, patterns.len())?;
    for pattern in patterns {
        if !are_apart(pattern.signs(), line) {
            lent.push(pattern.signs())?;
        }
    }
    Ok(lent)
}

/// Whether there are patterns, and none of them matches each text of the line's pattern.
fn tells(patterns: &[Signs<'_>], line: Signs<'_>) -> bool
    ensures { result ≡ tells (signs_in line.entry) (map signs_in patterns.now) }
{
    !patterns.is_empty() && !cover(patterns, line)
}

/// Whether one of the patterns is seen to match each text of the line's pattern.
fn cover(patterns: &[Signs<'_>], line: Signs<'_>) -> bool
    ensures { result ≡ list_any (λ own. covers own (signs_in line.entry)) (map signs_in patterns.now) }
{
    for &signs in patterns {
        if covers(signs, line) {
            return true;
        }
    }
    false
}

/// Whether the patterns are seen to match no text both.
fn are_apart(one: Signs<'_>, other: Signs<'_>) -> bool
    ensures { result ≡ are_apart (signs_in one.entry) (signs_in other.entry) }
{
    for i in 0..one.len() {
        if i >= other.len() {
            return false;
        }
        let (own, its) = (one.at(i), other.at(i));
        if differ(own, its) {
            return true;
        }
        if is_run(own) || is_run(its) {
            return false;
        }
    }
    false
}

/// Whether the one pattern is seen to match each text that the other matches.
fn covers(one: Signs<'_>, other: Signs<'_>) -> bool
    ensures { result ≡ covers (signs_in one.entry) (signs_in other.entry) }
{
    for i in 0..one.len() {
        if is_run(one.at(i)) {
            return i + 1 == one.len();
        }
        if i >= other.len() || !takes(one.at(i), other.at(i)) {
            return false;
        }
    }
    false
}

/// Whether the signs stand for two characters.
fn differ(one: Sign, other: Sign) -> bool
    ensures { result ≡ differ one other }
{
    match (one, other) {
        (Sign::Given(own), Sign::Given(its)) => own != its,
        _ => false,
    }
}

/// Whether the first sign stands for each character that the other stands for, and neither is `*`.
fn takes(one: Sign, other: Sign) -> bool
    ensures { result ≡ takes one other }
{
    match (one, other) {
        (Sign::Given(own), Sign::Given(its)) => own == its,
        (Sign::One, Sign::Given(_) | Sign::One) => true,
        _ => false,
    }
}

/// Whether the sign is `*`.
fn is_run(sign: Sign) -> bool
    ensures { result ≡ is_run sign }
{
    match sign {
        Sign::Any => true,
        Sign::Given(_) | Sign::One => false,
    }
}
