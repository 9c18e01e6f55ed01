// Patterns that the texts of resource elements become.
ghost use Rattle.std.specs.Prelude.{◌≡◌, ◌++◌, IfOk, OnOk, map, option_map};
ghost use Rattle.std.specs.List.{filter_map};
ghost use Rattle.iam_glob.specs.Signs.{signs_in};
ghost use Rattle.iam_context.specs.Resolve.{resolved};
ghost use Rattle.iam_every.specs.Groups.{signs_of};

use iam_context::{Context, resolve};
use iam_glob::{Glob, Signs};
use iam_text::{OutOfMemory, Template, TemplateForm};
use std::alloc::Global;

/// A pattern that a text of a resource element becomes.
#[derive(Debug, Drop)]
pub enum Pattern<'a> {
    /// That of a text without variables.
    Fixed(&'a Glob),
    /// One that a text with variables becomes by a context.
    Made(Glob),
}

impl<'a> Pattern<'a> {
    /// Its signs, in order.
    pub fn signs(&self) -> Signs<'_>
        ensures { signs_in result ≡ signs_of self.now }
    {
        match self {
            Pattern::Fixed(glob) => glob.signs(),
            Pattern::Made(glob) => glob.signs(),
        }
    }
}

/// Adds the patterns that the texts become by the context; a text that becomes none matches nothing, and is left out.
pub fn add_patterns<'c>(
    alloc: Global,
    patterns: &mut Vec<Pattern<'c>>,
    texts: &'c [Template],
    context: &Context<'c>,
) -> Result<(), OutOfMemory>
    ensures { OnOk result (map signs_of patterns.new.items
        ≡ map signs_of patterns.old.items ++ filter_map (resolved context.now) texts.now) }
{
    for text in texts {
        if let Some(pattern) = pattern_of(alloc, text, context)? {
            patterns.push(pattern)?;
        }
    }
    Ok(())
}

/// The pattern that the text becomes by the context; `None` where it becomes none.
fn pattern_of<'c>(
    alloc: Global,
    text: &'c Template,
    context: &Context<'c>,
) -> Result<Option<Pattern<'c>>, OutOfMemory>
    ensures { IfOk result (λ found. option_map signs_of found ≡ resolved context.now text.now) }
{
    match text.form() {
        TemplateForm::Fixed(glob) => Ok(Some(Pattern::Fixed(glob))),
        TemplateForm::Open(draft) => {
            let found = resolve(alloc, draft, context)?;
            Ok(found.map(|glob| Pattern::Made(glob)))
        }
    }
}
