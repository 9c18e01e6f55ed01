// What resource elements match at most, whoever asks.
use iam_context::wide_pattern;
use iam_policy::Resources;
use iam_text::{Glob, OutOfMemory};
use std::alloc::Global;
use std::marker::Model;

/// The patterns of a resource element with `*` in place of its variables: no other resource matches the element.
#[derive(Drop)]
pub struct Wide {
    patterns: Vec<Glob>,
}

impl Model for Wide {
    ghost use Rattle.std.specs.Prelude.{List};
    ghost use Rattle.iam_glob.specs.declared.sign.Sign.{Sign};

    ghost Value = { List (List Sign) };

    ghost view = { λ wide. wide.patterns.items };
}

impl Wide {
    ghost use Rattle.std.specs.Prelude.{◌↔◌, Any, IfOk, IfSome, IsTrue};
    ghost use Rattle.std.specs.Str.{chars};
    ghost use Rattle.iam_glob.specs.Glob.{Matches};
    ghost use Rattle.iam_match.specs.Wide.{Covers};

    /// The patterns; `None` for `NotResource`, and where a text has variables and wildcards do not stand there.
    pub fn of(alloc: Global, element: &Resources) -> Result<Option<Wide>, OutOfMemory>
        ensures { IfOk result (λ found. IfSome found (λ wide. Covers wide element.now)) }
    {
        if element.is_negated() {
            return Ok(None);
        }
        let texts = element.texts();
        let mut patterns = Vec::with_capacity(alloc, texts.len())?;
        for text in texts {
            match wide_pattern(alloc, text)? {
                Some(pattern) => patterns.push(pattern)?,
                None => return Ok(None),
            }
        }
        Ok(Some(Wide { patterns }))
    }

    /// Whether a pattern matches the resource. It takes no memory.
    pub fn may_match(&self, resource: &str) -> bool
        ensures { IsTrue result ↔ Any (λ pattern. Matches pattern (chars resource.now)) self.now }
    {
        self.patterns
            .iter()
            .any(|pattern| pattern.matches(resource))
    }
}
