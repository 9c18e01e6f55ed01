// What a text with variables becomes at most, in whatever context.
ghost use Rattle.std.specs.Prelude.{◌≡◌, IfOk, IfSome};
ghost use Rattle.iam_context.specs.Wide.{wide_of};

use crate::OutOfMemory;
use iam_text::{Draft, Glob, Template, TemplateForm};
use std::alloc::Global;

/// The pattern of a text with `*` in place of its variables, and of its forms for single characters: it matches all that the
/// text matches in some context. `None` where a text has forms and wildcards do not stand there.
pub fn wide_pattern(alloc: Global, text: &Template) -> Result<Option<Glob>, OutOfMemory>
    ensures { IfOk result (λ found. IfSome found (λ glob. glob ≡ wide_of text.now)) }
{
    match text.form() {
        TemplateForm::Fixed(glob) => Ok(Some(copy(alloc, glob)?)),
        TemplateForm::Open(draft) => open_pattern(alloc, draft),
    }
}

/// A copy of the pattern.
fn copy(alloc: Global, glob: &Glob) -> Result<Glob, OutOfMemory>
    ensures { IfOk result (λ copied. copied ≡ glob.now) }
{
    let signs = glob.signs();
    let mut copied = Vec::with_capacity(alloc, signs.len())?;
    for i in 0..signs.len() {
        copied.push(signs.at(i))?;
    }
    Ok(Glob::from_vec(copied))
}

/// The pattern of a draft, read from its text with `*` in place of each form.
fn open_pattern(alloc: Global, draft: &Draft) -> Result<Option<Glob>, OutOfMemory>
    ensures { IfOk result (λ found. IfSome found (λ glob. glob ≡ wide_of draft.now)) }
{
    let mut left = draft.stretches();
    if !left.is_wild() {
        return Ok(None);
    }
    let mut text = String::with_capacity(alloc, left.text().len())?;
    while let Some((front, _, behind)) = left.first_form() {
        text.push_str(front)?;
        text.push_str("*")?;
        left = behind;
    }
    text.push_str(left.text())?;
    Ok(Some(Glob::read(alloc, text.as_str())?))
}
