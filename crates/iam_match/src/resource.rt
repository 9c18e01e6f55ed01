// Whether the resource element matches.
ghost use Rattle.std.specs.Prelude.{◌↔◌, All, Any, IsTrue, IfOk, Some};
ghost use Rattle.std.specs.Str.{chars};
ghost use Rattle.iam_glob.specs.Glob.{Matches};
ghost use Rattle.iam_context.specs.Resolve.{resolved};
ghost use Rattle.iam_match.specs.Statement.{ResourceMatches, TextMatches};
ghost use Rattle.iam_match.specs.Code.Compared.{TellsOfPattern, TextDiffers};

use iam_context::{Context, resolve};
use iam_policy::Statement;
use iam_text::{OutOfMemory, Template, TemplateForm};
use std::alloc::Global;

/// Whether the resource element, if there is one, matches the resource.
///
/// AWS IAM User Guide, "IAM JSON policy elements: Resource" and "NotResource".
pub fn resource_matches<'c>(
    alloc: Global,
    statement: &'c Statement,
    resource: &str,
    context: &Context<'c>,
) -> Result<bool, OutOfMemory>
    ensures { IfOk result (λ matched. IsTrue matched ↔ ResourceMatches statement.now.resource resource.now context.now) }
{
    let Some(element) = statement.resource() else {
        return Ok(true);
    };
    if element.is_negated() {
        all_differ(alloc, element.texts(), resource, context)
    } else {
        some_matches(alloc, element.texts(), resource, context)
    }
}

/// Whether some text becomes a pattern that matches the resource.
fn some_matches<'c>(
    alloc: Global,
    texts: &'c [Template],
    resource: &str,
    context: &Context<'c>,
) -> Result<bool, OutOfMemory>
    ensures { IfOk result (λ matched. IsTrue matched ↔ Any (TextMatches context.now resource.now) texts.now) }
{
    for text in texts {
        if answer(alloc, text, resource, context)? == Some(true) {
            return Ok(true);
        }
    }
    Ok(false)
}

/// Whether each text becomes a pattern, and none matches the resource.
fn all_differ<'c>(
    alloc: Global,
    texts: &'c [Template],
    resource: &str,
    context: &Context<'c>,
) -> Result<bool, OutOfMemory>
    ensures { IfOk result (λ differ. IsTrue differ ↔ All (TextDiffers context.now resource.now) texts.now) }
{
    for text in texts {
        if answer(alloc, text, resource, context)? != Some(false) {
            return Ok(false);
        }
    }
    Ok(true)
}

/// Whether the pattern that the text becomes matches the resource; `None` where it becomes none. A text without
/// variables takes no memory.
fn answer<'c>(
    alloc: Global,
    text: &'c Template,
    resource: &str,
    context: &Context<'c>,
) -> Result<Option<bool>, OutOfMemory>
    ensures { IfOk result (TellsOfPattern (resolved context.now text.now) (λ signs. Matches signs (chars resource.now))) }
{
    match text.form() {
        TemplateForm::Fixed(glob) => Ok(Some(glob.matches(resource))),
        TemplateForm::Open(draft) => {
            let found = resolve(alloc, draft, context)?;
            Ok(found.map(|glob| glob.matches(resource)))
        }
    }
}
