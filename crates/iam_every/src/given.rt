// What is worked out once for all rows of a principal.
ghost use Rattle.std.specs.Prelude.{◌≡◌, ◌↔◌, ℕ, IfOk, IsTrue, MatchOption, false, map};
ghost use Rattle.std.specs.List.{Any, Contains};
ghost use Rattle.std.specs.Str.{chars};
ghost use Rattle.iam_glob.specs.Glob.{Matches};
ghost use Rattle.iam_glob.specs.Signs.{signs_in};
ghost use Rattle.iam_every.specs.Code.Rows.{AreMatched, AreNames, IsFirstOf};
ghost use Rattle.iam_every.specs.Every.{line_of, patterns_of};

use crate::asked::{Asked, Line};
use iam_context::Part;
use iam_glob::Signs;
use iam_layers::World;
use iam_match::OutOfMemory;
use std::alloc::Global;

/// What is asked for a principal, with what is worked out once.
#[derive(Clone, Copy)]
pub struct Given<'a> {
    pub asked: Asked<'a>,
    pub p: u64,
    /// What an ARN matches.
    pub arn: Signs<'a>,
    /// No keys.
    pub none: &'a Part,
    /// The resources of the world that a line matches.
    pub matched: &'a [u64],
    /// The texts of all resources of the world.
    pub names: &'a [&'a str],
    /// The patterns of all lines.
    pub patterns: &'a [Signs<'a>],
}

/// The texts of all resources of the world.
pub fn names_of<'a>(alloc: Global, world: &'a World) -> Result<Vec<&'a str>, OutOfMemory>
    ensures { IfOk result (λ names. AreNames world.entry.now (map (λ name. name.now) names.items)) }
{
    let mut names = Vec::new(alloc);
    for r in 0..world.resources() {
        names.push(world.resource_text(r))?;
    }
    Ok(names)
}

/// The resources of the world that some line matches, by number.
pub fn matched_resources(
    alloc: Global,
    world: &World,
    lines: &[Line<'_>],
) -> Result<Vec<u64>, OutOfMemory>
    ensures { IfOk result (λ matched. AreMatched world.now (map line_of lines.now) matched.items) }
{
    let mut matched = Vec::new(alloc);
    for r in 0..world.resources() {
        if has_line(lines, world.resource_text(r)) {
            matched.push(r)?;
        }
    }
    Ok(matched)
}

/// Whether the text is one of those.
pub fn is_among(names: &[&str], text: &str) -> bool
    ensures { IsTrue result ↔ Contains (map (λ name. name.now) names.now) text.now }
{
    names.contains(&text)
}

/// The patterns of the lines.
pub fn line_patterns<'a>(alloc: Global, lines: &[Line<'a>]) -> Result<Vec<Signs<'a>>, OutOfMemory>
    ensures { IfOk result (λ patterns. map signs_in patterns.items ≡ patterns_of (map line_of lines.now)) }
{
    let mut patterns = Vec::with_capacity(alloc, lines.len())?;
    for line in lines {
        patterns.push(line.pattern.signs())?;
    }
    Ok(patterns)
}

/// The number of the first of the lines whose pattern matches the text.
pub fn first_line(lines: &[Line<'_>], text: &str) -> Option<usize>
    ensures { MatchOption result (¬ Any (λ line. Matches line.pattern (chars text.now)) (map line_of lines.now))
        (λ k. IsFirstOf (map line_of lines.now) text.now k) }
{
    for (k, line) in lines.iter().enumerate() {
        if line.pattern.matches(text) {
            return Some(k);
        }
    }
    None
}

/// Whether the pattern of some line matches the text.
pub fn has_line(lines: &[Line<'_>], text: &str) -> bool
    ensures some { IsTrue result ↔ ((k : ℕ) × IsFirstOf (map line_of lines.now) text.now k) }
    ensures none { result ≡ false → ¬ Any (λ line. Matches line.pattern (chars text.now)) (map line_of lines.now) }
{
    first_line(lines, text).is_some()
}

/// Whether line k is the first of the lines whose pattern matches the text.
pub fn is_first_line(lines: &[Line<'_>], text: &str, k: usize) -> bool
    ensures { IsTrue result ↔ IsFirstOf (map line_of lines.now) text.now k }
{
    match first_line(lines, text) {
        Some(first) => first == k,
        None => false,
    }
}
