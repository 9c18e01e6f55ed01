// Texts that are looked at by themselves: those that a world names, and `*`.
ghost use Rattle.std.specs.Prelude.{◌≡◌, All, IfNone, IfOk, IfSome, map};
ghost use Rattle.std.specs.List.{AllZip};
ghost use Rattle.iam_decision.specs.Matched.{Selects};
ghost use Rattle.iam_asked.specs.Code.Found.{ArePlaces};
ghost use Rattle.iam_asked.specs.Texts.{resource_texts};
ghost use Rattle.iam_every.specs.Every.{Says, every_of, line_of};
ghost use Rattle.iam_every_changes.specs.Code.Given.{AreUtf8, target_of};
ghost use Rattle.iam_every_changes.specs.Made.{AreOwnTexts, AreTargets, IsAsked, IsTarget, own_texts};
ghost use Rattle.iam_every_changes.specs.States.{AreBoth, both_of};

use crate::distinct::distinct_texts;
use crate::states::Both;
use iam_asked::{Place, resource_places};
use iam_every::{Asked, Line, first_line, names_of};
use iam_layers::Unnamed;
use iam_match::OutOfMemory;
use std::alloc::Global;
use std::collections::HashMap;

/// A text of a resource, and what is said of it before and after.
#[derive(Clone, Copy)]
pub struct Target<'a> {
    pub text: &'a str,
    pub was: Unnamed<'a>,
    pub now: Unnamed<'a>,
}

/// The texts of the resources after, of those before, and `*`.
fn own_texts<'a>(alloc: Global, both: Both<'a>) -> Result<Vec<&'a str>, OutOfMemory>
    ensures texts { IfOk result (λ texts. map (λ text. text.now) texts.items ≡ own_texts (both_of both.entry)) }
    ensures utf8 { IfOk result (λ texts. AreUtf8 (both_of both.entry)) }
{
    let mut texts = names_of(alloc, both.after.asked.world)?;
    let mut more = names_of(alloc, both.before.asked.world)?;
    texts.append(&mut more)?;
    texts.push("*")?;
    Ok(texts)
}

/// Those of them that some line matches, each once.
fn asked_texts<'a>(alloc: Global, both: Both<'a>) -> Result<Vec<&'a str>, OutOfMemory>
    ensures texts { IfOk result (λ texts. AreOwnTexts (both_of both.entry) (map (λ text. text.now) texts.items)) }
    ensures utf8 { IfOk result (λ texts. AreUtf8 (both_of both.entry)) }
{
    let all = own_texts(alloc, both)?;
    let asked = matched_texts(alloc, both.after.asked.lines, all.as_slice())?;
    distinct_texts(alloc, asked.as_slice())
}

/// Those of the texts that some line matches.
fn matched_texts<'a>(
    alloc: Global,
    lines: &[Line<'_>],
    texts: &[&'a str],
) -> Result<Vec<&'a str>, OutOfMemory>
    ensures { IfOk result (λ matched. Selects (IsAsked (map line_of lines.now)) (map (λ text. text.now) texts.now)
        (map (λ text. text.now) matched.items)) }
{
    let mut matched = Vec::new(alloc);
    for &text in texts {
        if first_line(lines, text).is_some() {
            matched.push(text)?;
        }
    }
    Ok(matched)
}

/// What is said of a text that some line matches: what the resource of the world has that has it, or else what the first line says.
fn said_in<'a>(
    asked: Asked<'a>,
    places: &HashMap<&'a str, Place>,
    text: &str,
) -> Option<Unnamed<'a>>
    requires { ArePlaces (resource_texts asked.world.now) places.now }
    ensures some { IfSome result (Says (every_of asked.entry) text.now) }
    ensures none { IfNone result (¬ IsAsked (every_of asked.entry).lines text.now) }
{
    let k = first_line(asked.lines, text)?;
    match places.get(text) {
        Some(place) => Some(Unnamed::Like(place.first)),
        None => Some(asked.lines[k].unnamed),
    }
}

/// The texts that are looked at by themselves, with what is said of each.
pub fn targets<'a>(alloc: Global, both: Both<'a>) -> Result<Vec<Target<'a>>, OutOfMemory>
    requires { AreBoth (both_of both) }
    ensures targets { IfOk result (λ targets. AreTargets (both_of both.entry) (map target_of targets.items)) }
    ensures utf8 { IfOk result (λ targets. AreUtf8 (both_of both.entry)) }
{
    let before = resource_places(alloc, both.before.asked.world)?;
    let after = resource_places(alloc, both.after.asked.world)?;
    let texts = asked_texts(alloc, both)?;
    targets_of(alloc, both, &before, &after, texts.as_slice())
}

/// Each of the texts with what is said of it.
fn targets_of<'a>(
    alloc: Global,
    both: Both<'a>,
    before: &HashMap<&'a str, Place>,
    after: &HashMap<&'a str, Place>,
    texts: &[&'a str],
) -> Result<Vec<Target<'a>>, OutOfMemory>
    requires both { AreBoth (both_of both) }
    requires before { ArePlaces (resource_texts both.before.asked.world.now) before.now }
    requires after { ArePlaces (resource_texts both.after.asked.world.now) after.now }
    requires asked { All (IsAsked (both_of both).after.every.lines) (map (λ text. text.now) texts.now) }
    ensures { IfOk result (λ targets. AllZip (IsTarget (both_of both.entry)) (map (λ text. text.now) texts.now) (map target_of targets.items)) }
{
    let mut targets = Vec::with_capacity(alloc, texts.len())?;
    for &text in texts {
        if let Some(target) = target_in(both, before, after, text) {
            targets.push(target)?;
        }
    }
    Ok(targets)
}

/// The text with what is said of it, if some line matches it.
fn target_in<'a>(
    both: Both<'a>,
    before: &HashMap<&'a str, Place>,
    after: &HashMap<&'a str, Place>,
    text: &'a str,
) -> Option<Target<'a>>
    requires both { AreBoth (both_of both) }
    requires before { ArePlaces (resource_texts both.before.asked.world.now) before.now }
    requires after { ArePlaces (resource_texts both.after.asked.world.now) after.now }
    ensures some { IfSome result (λ target. IsTarget (both_of both.entry) text.entry.now (target_of target)) }
    ensures none { IfNone result (¬ IsAsked (both_of both.entry).after.every.lines text.entry.now) }
{
    let was = said_in(both.before.asked, before, text)?;
    let now = said_in(both.after.asked, after, text)?;
    Some(Target { text, was, now })
}
