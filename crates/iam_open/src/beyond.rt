// Whether what policies say asks for a key that is not known.
ghost use Rattle.std.specs.Prelude.{◌≡◌, not};
ghost use Rattle.std.specs.List.{list_any};
ghost use Rattle.iam_open.specs.Code.Known.{entry_beyond, has_some, operand_beyond, piece_beyond, text_beyond};
ghost use Rattle.iam_text.specs.Stretches.{piece_of};

use crate::known::Known;
use iam_condition::{Entry, Operand};
use iam_context::{Context, Draft, Text};
use iam_text::{Form, Template, TemplateForm};

/// Whether the entry asks for a key that is not known: its own, or, where that has a value in this context, that of a variable in its values.
pub fn entry_beyond<'c>(entry: &'c Entry, context: &Context<'c>, known: &Known<'_>) -> bool
    ensures { result ≡ entry_beyond known.now context.now entry.now }
{
    if !known.has(entry.key()) {
        return true;
    }
    has_some(context.values(entry.key())) && some_beyond(entry.values(), known)
}

/// Whether there is a value.
fn has_some(values: &[Text]) -> bool
    ensures { result ≡ has_some values.now }
{
    match values {
        [] => false,
        _ => true,
    }
}

/// Whether one of these values does.
fn some_beyond(values: &[Operand], known: &Known<'_>) -> bool
    ensures { result ≡ list_any (operand_beyond known.now) values.now }
{
    for value in values {
        if operand_beyond(value, known) {
            return true;
        }
    }
    false
}

fn operand_beyond(value: &Operand, known: &Known<'_>) -> bool
    ensures { result ≡ operand_beyond known.now value.now }
{
    match value {
        Operand::Text(text) => text_beyond(text, known),
        _ => false,
    }
}

/// Whether a variable of the text does.
pub fn text_beyond(text: &Template, known: &Known<'_>) -> bool
    ensures { result ≡ text_beyond known.now text.now }
{
    match text.form() {
        TemplateForm::Fixed(_) => false,
        TemplateForm::Open(draft) => draft_beyond(draft, known),
    }
}

fn draft_beyond(draft: &Draft, known: &Known<'_>) -> bool
    ensures { result ≡ text_beyond known.now draft.now }
{
    let mut left = draft.stretches();
    while let Some((_, form, behind)) = left.first_form() {
        if form_beyond(form, known) {
            return true;
        }
        left = behind;
    }
    false
}

fn form_beyond(form: Form<'_>, known: &Known<'_>) -> bool
    ensures { result ≡ piece_beyond known.now (piece_of form.entry) }
{
    match form {
        Form::Literal(_) => false,
        Form::Named(key, _) => !known.has(key),
    }
}
