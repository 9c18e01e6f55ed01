// What a text with variables becomes in a context.
ghost use Rattle.std.specs.Prelude.{◌≡◌, ◌++◌, ◌∷◌, [], ◌==◌, ◌||◌, Bool, not, Some, None, map, option_map, IfOk, IfSome, IsTrue, if◌then◌else◌};
ghost use Rattle.std.specs.List.{list_all};
ghost use Rattle.std.specs.Str.{chars};
ghost use Rattle.std.specs.String.{string_bytes};
ghost use Rattle.iam_glob.specs.Glob.{plain_sign, sign_of};
ghost use Rattle.iam_text.specs.declared.draft.Piece.TheVariants as piece;
ghost use Rattle.iam_text.specs.Stretches.{piece_of};
ghost use Rattle.iam_context.specs.Resolve.{one_or, piece_signs, resolved};

use crate::OutOfMemory;
use crate::context::Context;
use iam_text::{Draft, Form, Glob, Sign, Stretches, Text, add_signs};
use std::alloc::Global;

/// The pattern that a text with variables becomes in the context, where the characters of a value are no wildcards;
/// `None` where some variable has neither one value nor a default.
pub fn resolve<'a>(
    alloc: Global,
    draft: &'a Draft,
    context: &Context<'a>,
) -> Result<Option<Glob>, OutOfMemory>
    ensures { IfOk result (λ found. found ≡ resolved context.now draft.now) }
{
    let whole = draft.stretches();
    let wild = whole.is_wild();
    match text_of(alloc, whole, context)? {
        Some(text) => Ok(Some(pattern_of(alloc, text.as_str(), wild)?)),
        None => sign_by_sign(alloc, draft, context),
    }
}

/// What a text that is one variable alone becomes, without a pattern made of it: its value, whose characters are all given,
/// or `None` inside where it has none. `None` where the text is anything else.
pub fn lone_value<'a: 'c, 'c>(draft: &'a Draft, context: &'c Context<'a>) -> Option<Option<&'c str>>
    ensures { IfSome result (λ value. resolved context.now draft.now ≡ option_map (λ v. map plain_sign (chars v.now)) value) }
{
    let (key, default) = lone_variable(draft)?;
    Some(one_or(context.values(key), default))
}

/// The key and the default of the variable that the text is, with nothing before it and nothing behind.
fn lone_variable(draft: &Draft) -> Option<(&str, Option<&str>)>
    ensures { IfSome result (λ p. draft.entry.now ≡ piece.Variable p.0.now (option_map (λ d. d.now) p.1) ∷ []) }
{
    let (front, form, behind) = draft.stretches().first_form()?;
    let Form::Named(key, default) = form else {
        return None;
    };
    if front.is_empty() && is_end(&behind) {
        Some((key, default))
    } else {
        None
    }
}

/// Whether nothing is left.
fn is_end(left: &Stretches<'_>) -> bool
    ensures { IsTrue result → left.now.pieces ≡ [] }
{
    match left.first_form() {
        Some(_) => false,
        None => left.text().is_empty(),
    }
}

/// The pattern of a text in which `*` and `?` are wildcards where `wild` says so.
fn pattern_of(alloc: Global, text: &str, wild: bool) -> Result<Glob, OutOfMemory>
    ensures { IfOk result (λ glob. glob ≡ map (sign_of wild) (chars text.now)) }
{
    if wild {
        Glob::read(alloc, text)
    } else {
        Glob::plain(alloc, text)
    }
}

/// The text of whose characters the pattern is made, with values in place of variables. There is none where a variable has no
/// value, or one with wildcards, or where a wildcard is written as a form.
fn text_of<'a>(
    alloc: Global,
    mut left: Stretches<'a>,
    context: &Context<'a>,
) -> Result<Option<String>, OutOfMemory>
    ensures { IfOk result (λ found. IfSome found (λ text. resolved context.now left.entry.pieces
        ≡ Some (map (sign_of left.entry.wild) (chars (string_bytes text))))) }
{
    let mut text = String::with_capacity(alloc, left.text().len())?;
    while let Some((front, form, behind)) = left.first_form() {
        let Some(value) = plain_value(form, context) else {
            return Ok(None);
        };
        text.push_str(front)?;
        text.push_str(value)?;
        left = behind;
    }
    text.push_str(left.text())?;
    Ok(Some(text))
}

/// The value of a form, where it is that of a variable and has no wildcards.
fn plain_value<'a: 'c, 'c>(form: Form<'a>, context: &'c Context<'a>) -> Option<&'c str>
    ensures { IfSome result (λ value. (wild : Bool) → piece_signs context.now (piece_of form.entry) ≡ Some (map (sign_of wild) (chars value.now))) }
{
    let Form::Named(key, default) = form else {
        return None;
    };
    let value = one_or(context.values(key), default)?;
    if has_no_wildcard(value) {
        Some(value)
    } else {
        None
    }
}

/// Whether neither `*` nor `?` stands in a text.
fn has_no_wildcard(text: &str) -> bool
    ensures { result ≡ list_all (λ c. not (c == 42 || c == 63)) (chars text.now) }
{
    text.chars().all(|c| !(c == '*' || c == '?'))
}

/// The same pattern, made sign by sign.
fn sign_by_sign<'a>(
    alloc: Global,
    draft: &'a Draft,
    context: &Context<'a>,
) -> Result<Option<Glob>, OutOfMemory>
    ensures { IfOk result (λ found. found ≡ resolved context.now draft.now) }
{
    let mut left = draft.stretches();
    let mut signs = Vec::with_capacity(alloc, left.text().len())?;
    while let Some((front, form, behind)) = left.first_form() {
        add_signs(&mut signs, front, left.is_wild())?;
        if !add_form(&mut signs, form, context)? {
            return Ok(None);
        }
        left = behind;
    }
    add_signs(&mut signs, left.text(), left.is_wild())?;
    Ok(Some(Glob::from_vec(signs)))
}

/// Adds the signs of a form; `false` where it is a variable without a value.
fn add_form<'a>(
    signs: &mut Vec<Sign>,
    form: Form<'a>,
    context: &Context<'a>,
) -> Result<bool, OutOfMemory>
    ensures { IfOk result (λ known. option_map (λ more. signs.old.items ++ more) (piece_signs context.now (piece_of form.entry))
        ≡ if known then Some signs.new.items else None) }
{
    match form {
        Form::Literal(character) => signs.push(Sign::Given(character))?,
        Form::Named(key, default) => match one_or(context.values(key), default) {
            Some(value) => add_signs(signs, value, false)?,
            None => return Ok(false),
        },
    }
    Ok(true)
}

/// The one value; the default where there is none, or several.
fn one_or<'t>(values: &'t [Text], default: Option<&'t str>) -> Option<&'t str>
    ensures { option_map (λ value. value.now) result ≡ one_or values.now (option_map (λ text. text.now) default.entry) }
{
    match values {
        [value] => Some(value.as_str()),
        _ => default,
    }
}
