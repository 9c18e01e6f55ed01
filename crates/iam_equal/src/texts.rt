// Whether two resource elements are the same, and two texts that may hold variables, piece by piece.
ghost use Rattle.std.specs.Prelude.{◌≡◌, ◌↔◌, IsTrue, map};
ghost use Rattle.std.specs.Option.{option_copied};
ghost use Rattle.std.specs.Str.{chars};
ghost use Rattle.iam_glob.specs.Glob.{sign_of};
ghost use Rattle.iam_text.specs.Draft.{plain_draft};
ghost use Rattle.iam_text.specs.Stretches.{piece_of};

use crate::patterns::is_same_pattern;
use crate::plain::{Plain, are_same_plain, has_signs};
use iam_element::Resources;
use iam_text::{Draft, Form, Glob, Stretches, Template, TemplateForm};

/// Whether both elements are the same, or neither stands there.
pub fn are_same_resources(one: Option<&Resources>, other: Option<&Resources>) -> bool
    ensures { IsTrue result ↔ option_copied one.entry ≡ option_copied other.entry }
{
    match (one, other) {
        (None, None) => true,
        (Some(one), Some(other)) => is_same_element(one, other),
        _ => false,
    }
}

fn is_same_element(one: &Resources, other: &Resources) -> bool
    ensures { IsTrue result ↔ one.now ≡ other.now }
{
    one.is_negated() == other.is_negated() && are_same_texts(one.texts(), other.texts())
}

/// Whether both lists have the same texts in the same order.
fn are_same_texts(ones: &[Template], others: &[Template]) -> bool
    ensures { IsTrue result ↔ ones.now ≡ others.now }
{
    if ones.len() != others.len() {
        return false;
    }
    for i in 0..ones.len() {
        if !is_same_text(&ones[i], &others[i]) {
            return false;
        }
    }
    true
}

/// Whether both texts have the same pieces, however each is kept.
pub fn is_same_text(one: &Template, other: &Template) -> bool
    ensures { IsTrue result ↔ one.now ≡ other.now }
{
    one.is_same(other) || has_same_pieces(one, other)
}

fn has_same_pieces(one: &Template, other: &Template) -> bool
    ensures { IsTrue result ↔ one.now ≡ other.now }
{
    match (one.form(), other.form()) {
        (TemplateForm::Fixed(one), TemplateForm::Fixed(other)) => is_same_pattern(one, other),
        (TemplateForm::Fixed(glob), TemplateForm::Open(draft)) => is_pattern(draft, glob),
        (TemplateForm::Open(draft), TemplateForm::Fixed(glob)) => is_pattern(draft, glob),
        (TemplateForm::Open(one), TemplateForm::Open(other)) => {
            are_same_stretches(one.stretches(), other.stretches())
        }
    }
}

/// Whether the draft has no variables, and its characters are the signs of the pattern.
fn is_pattern(draft: &Draft, glob: &Glob) -> bool
    ensures { IsTrue result ↔ draft.now ≡ plain_draft glob.now }
{
    let left = draft.stretches();
    match left.first_form() {
        Some(_) => false,
        None => has_signs(left_as_plain(&left), glob.signs()),
    }
}

/// Whether both stand for the same pieces: plain text and forms in turn.
fn are_same_stretches(ones: Stretches<'_>, others: Stretches<'_>) -> bool
    ensures { IsTrue result ↔ ones.entry.pieces ≡ others.entry.pieces }
{
    let mut left = ones;
    let mut other_left = others;
    while let Some((front, form, behind)) = left.first_form() {
        let Some((other_front, other_form, other_behind)) = other_left.first_form() else {
            return false;
        };
        let plain = Plain {
            text: front,
            wild: left.is_wild(),
        };
        let other_plain = Plain {
            text: other_front,
            wild: other_left.is_wild(),
        };
        if !is_same_form(form, other_form) || !are_same_plain(plain, other_plain) {
            return false;
        }
        left = behind;
        other_left = other_behind;
    }
    match other_left.first_form() {
        Some(_) => false,
        None => are_same_plain(left_as_plain(&left), left_as_plain(&other_left)),
    }
}

/// All the text that is left, read as plain text.
fn left_as_plain<'a>(left: &Stretches<'a>) -> Plain<'a>
    ensures { map (sign_of result.wild) (chars result.text.now) ≡ map (sign_of left.now.wild) (chars left.now.text) }
{
    Plain {
        text: left.text(),
        wild: left.is_wild(),
    }
}

fn is_same_form(one: Form<'_>, other: Form<'_>) -> bool
    ensures { IsTrue result ↔ piece_of one.entry ≡ piece_of other.entry }
{
    match (one, other) {
        (Form::Literal(one), Form::Literal(other)) => one == other,
        (Form::Named(one, None), Form::Named(other, None)) => one == other,
        (Form::Named(one, Some(default)), Form::Named(other, Some(other_default))) => {
            one == other && default == other_default
        }
        _ => false,
    }
}
