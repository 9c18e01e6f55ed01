// Whether conditions ask for keys.
ghost use Rattle.std.specs.Prelude.{◌≡◌, ℕ, List};
ghost use Rattle.std.specs.List.{list_any};
ghost use Rattle.iam_unasked.specs.Names.{HasNames};
ghost use Rattle.iam_text.specs.Stretches.{piece_of};
ghost use Rattle.iam_unasked.specs.Asks.{entry_asks, operand_asks, piece_asks};

use crate::names::Names;
use iam_condition::{Entry, Operand, Template};
use iam_context::Draft;
use iam_policy::Statement;
use iam_text::{Form, TemplateForm};

/// Whether the conditions of the statement ask for one of these keys: whether it is the key of an entry, or that of a variable in the
/// values of one. It takes no memory.
pub fn asks_for<'a>(statement: &'a Statement, keys: &Names<'a>) -> bool
    ensures { (list : List (List ℕ)) → HasNames keys.now list → result ≡ list_any (entry_asks list) statement.now.conditions }
{
    for entry in statement.conditions() {
        if entry_asks(entry, keys) {
            return true;
        }
    }
    false
}

fn entry_asks<'a>(entry: &'a Entry, keys: &Names<'a>) -> bool
    ensures { (list : List (List ℕ)) → HasNames keys.now list → result ≡ entry_asks list entry.now }
{
    keys.has(entry.key()) || some_asks(entry.values(), keys)
}

/// Whether one of these values asks.
fn some_asks<'a>(values: &'a [Operand], keys: &Names<'a>) -> bool
    ensures { (list : List (List ℕ)) → HasNames keys.now list → result ≡ list_any (operand_asks list) values.now }
{
    for value in values {
        if operand_asks(value, keys) {
            return true;
        }
    }
    false
}

fn operand_asks<'a>(value: &'a Operand, keys: &Names<'a>) -> bool
    ensures { (list : List (List ℕ)) → HasNames keys.now list → result ≡ operand_asks list value.now }
{
    match value {
        Operand::Text(text) => text_asks(text, keys),
        _ => false,
    }
}

/// Whether a variable of the text asks.
fn text_asks<'a>(text: &'a Template, keys: &Names<'a>) -> bool
    ensures { (list : List (List ℕ)) → HasNames keys.now list → result ≡ list_any (piece_asks list) text.now }
{
    match text.form() {
        TemplateForm::Fixed(_) => false,
        TemplateForm::Open(draft) => draft_asks(draft, keys),
    }
}

fn draft_asks<'a>(draft: &'a Draft, keys: &Names<'a>) -> bool
    ensures { (list : List (List ℕ)) → HasNames keys.now list → result ≡ list_any (piece_asks list) draft.now }
{
    let mut left = draft.stretches();
    while let Some((_, form, behind)) = left.first_form() {
        if form_asks(form, keys) {
            return true;
        }
        left = behind;
    }
    false
}

fn form_asks<'a>(form: Form<'a>, keys: &Names<'a>) -> bool
    ensures { (list : List (List ℕ)) → HasNames keys.now list → result ≡ piece_asks list (piece_of form.entry) }
{
    match form {
        Form::Literal(_) => false,
        Form::Named(key, _) => keys.has(key),
    }
}
