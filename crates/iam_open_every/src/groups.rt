// The groups of patterns by which statements read the text of a resource, in all contexts that agree on what is known.
ghost use Rattle.std.specs.Prelude.{◌≡◌, ◌++◌, IfOk, IfSome, OnOk, map, option_map};
ghost use Rattle.std.specs.List.{list_any};
ghost use Rattle.iam_decision.specs.Code.Scan.{placed_value};
ghost use Rattle.iam_every.specs.Groups.{groups_of};
ghost use Rattle.iam_open.specs.Code.Known.{text_beyond};
ghost use Rattle.iam_open_every.specs.Groups.{AreOpenGroups, element_beyond, element_groups, groups_at};

use iam_context::Context;
use iam_decision::Standing;
use iam_every::{Pattern, add_patterns};
use iam_match::{OutOfMemory, Statement};
use iam_open::{Known, text_beyond};
use iam_text::Template;
use std::alloc::Global;

/// For each of the statements that has a resource element a group: the patterns that the texts of the element become in the context, which
/// are the same in all contexts that agree with it on the keys that are known. In each of these the statements read alike whatever texts
/// all groups agree on. `None` where a text of an element asks for a key that is not known.
///
/// AWS IAM User Guide, "IAM JSON policy elements: Resource", "NotResource", and "IAM policy elements: Variables and tags".
pub fn open_groups<'a: 'c, 'c>(
    alloc: Global,
    statements: &[Standing<'a>],
    context: &Context<'c>,
    known: &Known<'_>,
) -> Result<Option<Vec<Vec<Pattern<'c>>>>, OutOfMemory>
    ensures are { IfOk result (λ found. option_map (λ groups. groups_of groups.items) found
        ≡ groups_at known.now context.now (map placed_value statements.now)) }
    ensures alike { IfOk result (λ found. IfSome found (λ groups.
        AreOpenGroups known.now context.now (map placed_value statements.now) (groups_of groups.items))) }
{
    let mut groups = Vec::new(alloc);
    for &standing in statements {
        if element_beyond(standing.statement, known) {
            return Ok(None);
        }
        add_group(alloc, &mut groups, standing.statement, context)?;
    }
    Ok(Some(groups))
}

/// Whether a text of its resource element asks for a key that is not known.
fn element_beyond(statement: &Statement, known: &Known<'_>) -> bool
    ensures { result ≡ element_beyond known.now statement.now.resource }
{
    match statement.resource() {
        Some(element) => texts_beyond(element.texts(), known),
        None => false,
    }
}

/// Whether one of the texts does.
fn texts_beyond(texts: &[Template], known: &Known<'_>) -> bool
    ensures { result ≡ list_any (text_beyond known.now) texts.now }
{
    for text in texts {
        if text_beyond(text, known) {
            return true;
        }
    }
    false
}

/// Adds the group of its resource element, if it has one.
fn add_group<'c>(
    alloc: Global,
    groups: &mut Vec<Vec<Pattern<'c>>>,
    statement: &'c Statement,
    context: &Context<'c>,
) -> Result<(), OutOfMemory>
    ensures { OnOk result (groups_of groups.new.items ≡ groups_of groups.old.items ++ element_groups context.now statement.now.resource) }
{
    let Some(element) = statement.resource() else {
        return Ok(());
    };
    let mut patterns = Vec::new(alloc);
    add_patterns(alloc, &mut patterns, element.texts(), context)?;
    groups.push(patterns)?;
    Ok(())
}
