// Resource elements without variables.
ghost use Rattle.std.specs.Prelude.{◌↔◌, ◌≡◌, Any, IsTrue, IfOk, IfSome, Some, map};
ghost use Rattle.std.specs.Str.{chars};
ghost use Rattle.iam_glob.specs.Glob.{Matches};
ghost use Rattle.iam_text.specs.Draft.{plain_draft};
ghost use Rattle.iam_element.specs.Reading.{ResourceElement};

use iam_policy::Resources;
use iam_text::{Compiled, OutOfMemory, TemplateForm};
use std::alloc::Global;
use std::marker::Model;

/// A resource element none of whose texts has variables, its patterns compiled: it matches a resource or not whoever asks.
///
/// AWS IAM User Guide, "IAM JSON policy elements: Resource" and "NotResource".
#[derive(Drop)]
pub struct Fixed<'a> {
    is_negated: bool,
    patterns: Vec<Compiled<'a>>,
}

impl<'a> Model for Fixed<'a> {
    ghost Value = { ResourceElement };

    ghost view = { λ f. record { negated = f.is_negated; texts = map plain_draft f.patterns.items } };
}

impl<'a> Fixed<'a> {
    ghost use Rattle.iam_context.specs.Context.{ContextValue};
    ghost use Rattle.iam_match.specs.Statement.{ResourceMatches};

    /// The element; `None` where one of its texts has variables.
    pub fn of(alloc: Global, element: &'a Resources) -> Result<Option<Fixed<'a>>, OutOfMemory>
        ensures { IfOk result (λ found. IfSome found (λ fixed. fixed ≡ element.entry.now)) }
    {
        let texts = element.texts();
        let mut patterns = Vec::with_capacity(alloc, texts.len())?;
        for text in texts {
            match text.form() {
                TemplateForm::Fixed(glob) => patterns.push(Compiled::of(alloc, glob)?)?,
                TemplateForm::Open(_) => return Ok(None),
            }
        }
        Ok(Some(Fixed {
            is_negated: element.is_negated(),
            patterns,
        }))
    }

    /// Whether the element matches the resource, in whatever context. It takes no memory.
    pub fn matches(&self, resource: &str) -> bool
        ensures { (context : ContextValue) → IsTrue result ↔ ResourceMatches (Some self.now) resource.now context }
    {
        self.is_negated != any_matches(self.patterns.as_slice(), resource)
    }
}

fn any_matches(patterns: &[Compiled<'_>], text: &str) -> bool
    ensures { IsTrue result ↔ Any (λ pattern. Matches pattern (chars text.now)) patterns.now }
{
    patterns.iter().any(|pattern| pattern.matches(text))
}
