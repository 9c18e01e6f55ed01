// Texts of resources that policies do not tell apart, whatever values the keys have that nothing gives.
ghost use Rattle.std.specs.Prelude.{◌<◌, IfOk, length, map, option_map, string_bytes};
ghost use Rattle.iam_decision.specs.Matched.{Selects};
ghost use Rattle.iam_every.specs.Code.Rows.{AreWalksOf, IsFirstOf, IsGiven};
ghost use Rattle.iam_every.specs.Every.{every_of, line_of};
ghost use Rattle.iam_every.specs.Groups.{groups_of};
ghost use Rattle.iam_open_every.specs.Texts.{AreTextsBy};

use iam_every::{Given, Line, Pattern, is_first_line, text_kinds};
use iam_kinds::{Kinds, Walks};
use iam_match::OutOfMemory;
use std::alloc::Global;

/// Texts of ARNs that no resource of the world has, of which line k is the first to speak, one like each that is, where these groups tell
/// apart all that are not alike; `None` where there are too many kinds.
///
/// AWS IAM User Guide, "IAM JSON policy elements: Resource" and "NotResource".
pub fn all_texts(
    alloc: Global,
    walks: &mut Walks,
    given: Given<'_>,
    k: usize,
    groups: &[Vec<Pattern<'_>>],
) -> Result<Option<Vec<String>>, OutOfMemory>
    requires given { IsGiven given }
    requires line { k < length given.asked.lines.now }
    requires walks { AreWalksOf given.asked.world.now walks.old }
    ensures walks { AreWalksOf given.entry.asked.world.now walks.new }
    ensures texts { IfOk result (λ found. AreTextsBy (every_of given.entry.asked) k (groups_of groups.now)
        (option_map (λ texts. map string_bytes texts.items) found)) }
{
    let lines = given.asked.lines;
    match text_kinds(
        alloc,
        walks,
        groups,
        lines[k].pattern.signs(),
        given.arn,
        &given.patterns[..k],
    )? {
        Kinds::Shown(texts) => Ok(Some(first_texts(alloc, lines, k, texts)?)),
        Kinds::NotShown => Ok(None),
    }
}

/// Those of the texts of which line k is the first to speak.
fn first_texts(
    alloc: Global,
    lines: &[Line<'_>],
    k: usize,
    texts: Vec<String>,
) -> Result<Vec<String>, OutOfMemory>
    ensures { IfOk result (λ first. Selects (λ text. IsFirstOf (map line_of lines.now) text k) (map string_bytes texts.items)
        (map string_bytes first.items)) }
{
    let mut first = Vec::new(alloc);
    for text in texts {
        if is_first_line(lines, text.as_str(), k) {
            first.push(text)?;
        }
    }
    Ok(first)
}
