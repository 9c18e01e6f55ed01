// Whether a resource element matches in contexts that agree on what is known.
ghost use Rattle.std.specs.Prelude.{◌≡◌, ◌⊎◌, ◌↔◌, All, Any, IfOk, IsSome, IsTrue, MatchOption, None, Some, option_copied, true};
ghost use Rattle.std.specs.List.{flat_map};
ghost use Rattle.iam_context.specs.Context.{ContextValue};
ghost use Rattle.iam_context.specs.Resolve.{resolved};
ghost use Rattle.iam_match.specs.Code.Compared.{TextDiffers};
ghost use Rattle.iam_match.specs.Statement.{ResourceMatches, TextMatches};
ghost use Rattle.iam_open.specs.Asks.{element_keys, is_beyond, text_keys};
ghost use Rattle.iam_open.specs.Code.Certain.{IfOpen, Tells};
ghost use Rattle.iam_open.specs.Code.Known.{AgreeOn};

use crate::beyond::text_beyond;
use crate::certain::Certain;
use crate::known::Known;
use iam_context::{Context, resolve, wide_pattern};
use iam_match::OutOfMemory;
use iam_policy::Resources;
use iam_text::{Template, TemplateForm};
use std::alloc::Global;

/// Whether the resource element, if there is one, matches the resource in the contexts that agree with this one on the keys that are known.
///
/// AWS IAM User Guide, "IAM JSON policy elements: Resource" and "NotResource".
pub fn resource_certain<'c>(
    alloc: Global,
    element: Option<&'c Resources>,
    resource: &str,
    context: &Context<'c>,
    known: &Known<'_>,
) -> Result<Certain, OutOfMemory>
    ensures told { IfOk result (λ certain. Tells certain (AgreeOn known.now context.now)
        (λ other. ResourceMatches (option_copied element.entry) resource.now other)) }
    ensures asks { IfOk result (λ certain. IfOpen certain (is_beyond known.now (element_keys (option_copied element.entry)) ≡ true)) }
{
    match element {
        None => Ok(Certain::Always),
        Some(element) => element_certain(alloc, element, resource, context, known),
    }
}

fn element_certain<'c>(
    alloc: Global,
    element: &'c Resources,
    resource: &str,
    context: &Context<'c>,
    known: &Known<'_>,
) -> Result<Certain, OutOfMemory>
    ensures told { IfOk result (λ certain. Tells certain (AgreeOn known.now context.now) (λ other. ResourceMatches (Some element.now) resource.now other)) }
    ensures asks { IfOk result (λ certain. IfOpen certain (is_beyond known.now (flat_map text_keys element.now.texts) ≡ true)) }
{
    if element.is_negated() {
        all_differ(alloc, element.texts(), resource, context, known)
    } else {
        some_matches(alloc, element.texts(), resource, context, known)
    }
}

/// Whether some text becomes a pattern that matches the resource.
fn some_matches<'c>(
    alloc: Global,
    texts: &'c [Template],
    resource: &str,
    context: &Context<'c>,
    known: &Known<'_>,
) -> Result<Certain, OutOfMemory>
    ensures told { IfOk result (λ certain. Tells certain (AgreeOn known.now context.now) (λ other. Any (TextMatches other resource.now) texts.now)) }
    ensures asks { IfOk result (λ certain. IfOpen certain (is_beyond known.now (flat_map text_keys texts.now) ≡ true)) }
{
    let mut certain = Certain::Never;
    for text in texts {
        certain = certain.or(text_matches(alloc, text, resource, context, known)?);
    }
    Ok(certain)
}

/// Whether all texts become patterns, of which none matches the resource.
fn all_differ<'c>(
    alloc: Global,
    texts: &'c [Template],
    resource: &str,
    context: &Context<'c>,
    known: &Known<'_>,
) -> Result<Certain, OutOfMemory>
    ensures told { IfOk result (λ certain. Tells certain (AgreeOn known.now context.now) (λ other. All (TextDiffers other resource.now) texts.now)) }
    ensures asks { IfOk result (λ certain. IfOpen certain (is_beyond known.now (flat_map text_keys texts.now) ≡ true)) }
{
    let mut certain = Certain::Always;
    for text in texts {
        certain = certain.and(text_differs(alloc, text, resource, context, known)?);
    }
    Ok(certain)
}

/// Whether the text becomes a pattern that matches the resource; where it asks for keys that are not known, it does not match what its
/// pattern with `*` in their place does not.
fn text_matches<'c>(
    alloc: Global,
    text: &'c Template,
    resource: &str,
    context: &Context<'c>,
    known: &Known<'_>,
) -> Result<Certain, OutOfMemory>
    ensures told { IfOk result (λ certain. Tells certain (AgreeOn known.now context.now) (λ other. TextMatches other resource.now text.now)) }
    ensures asks { IfOk result (λ certain. IfOpen certain (is_beyond known.now (text_keys text.now) ≡ true)) }
{
    if text_beyond(text, known) {
        return may_match(alloc, text, resource);
    }
    match fit(alloc, text, resource, context)? {
        Some(matches) => Ok(Certain::of(matches)),
        None => Ok(Certain::Never),
    }
}

/// Whether it is seen that the text matches the resource in no context.
fn may_match(alloc: Global, text: &Template, resource: &str) -> Result<Certain, OutOfMemory>
    ensures { IfOk result (λ certain. (certain ≡ Certain.Open) ⊎ ((certain ≡ Certain.Never)
        × ((other : ContextValue) → ¬ TextMatches other resource.now text.now))) }
{
    match wide_pattern(alloc, text)? {
        Some(pattern) => {
            if pattern.matches(resource) {
                Ok(Certain::Open)
            } else {
                Ok(Certain::Never)
            }
        }
        None => Ok(Certain::Open),
    }
}

/// Whether the text becomes a pattern that does not match the resource.
fn text_differs<'c>(
    alloc: Global,
    text: &'c Template,
    resource: &str,
    context: &Context<'c>,
    known: &Known<'_>,
) -> Result<Certain, OutOfMemory>
    ensures told { IfOk result (λ certain. Tells certain (AgreeOn known.now context.now) (λ other. TextDiffers other resource.now text.now)) }
    ensures asks { IfOk result (λ certain. IfOpen certain (is_beyond known.now (text_keys text.now) ≡ true)) }
{
    if text_beyond(text, known) {
        return Ok(Certain::Open);
    }
    match fit(alloc, text, resource, context)? {
        Some(matches) => Ok(Certain::of(!matches)),
        None => Ok(Certain::Never),
    }
}

/// Whether the pattern that the text becomes matches the resource; `None` where it becomes none.
fn fit<'c>(
    alloc: Global,
    text: &'c Template,
    resource: &str,
    context: &Context<'c>,
) -> Result<Option<bool>, OutOfMemory>
    ensures { IfOk result (λ fit. MatchOption fit (resolved context.now text.now ≡ None)
        (λ matches. IsSome (resolved context.now text.now) × (IsTrue matches ↔ TextMatches context.now resource.now text.now))) }
{
    match text.form() {
        TemplateForm::Fixed(glob) => Ok(Some(glob.matches(resource))),
        TemplateForm::Open(draft) => {
            let found = resolve(alloc, draft, context)?;
            Ok(found.map(|glob| glob.matches(resource)))
        }
    }
}
