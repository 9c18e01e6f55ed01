// Tests on the elements of a statement: which are there, and whether each is a text or a list of texts.
ghost use Rattle.std.specs.Prelude.{◌≡◌, map, Some, MatchOption, true, if◌then◌else◌};
ghost use Rattle.std.specs.List.{list_all, list_any};
ghost use Rattle.serde_json.specs.View.{view};
ghost use Rattle.iam_element.specs.Grammar.{form_of};
ghost use Rattle.iam_element.specs.Element.{both, neither, listed, is_text, is_no_text, are_texts, is_bad_list, has_text, is_this, is_too_long};
ghost use Rattle.iam_element.specs.Code.Members.{data_of};

use crate::grammar::TextForm;
use serde_json::Value;
use std::slice;

/// How many statements a document may have, and how many members a list of a statement.
pub const MOST: usize = 4096;

/// Whether both elements stand there.
pub fn has_both(one: Option<&Value>, other: Option<&Value>) -> bool
    ensures { result ≡ both (data_of one.entry) (data_of other.entry) }
{
    one.is_some() && other.is_some()
}

/// Whether neither element stands there.
pub fn has_neither(one: Option<&Value>, other: Option<&Value>) -> bool
    ensures { result ≡ neither (data_of one.entry) (data_of other.entry) }
{
    one.is_none() && other.is_none()
}

/// What stands in a list of texts, where one text may stand without brackets.
pub fn listed(element: Option<&Value>) -> &[Value]
    ensures { map view result.now ≡ listed (data_of element.entry) }
{
    element.map_or(&[], values_in)
}

/// The values of a list, or one text.
pub fn values_in(value: &Value) -> &[Value]
    ensures { map view result.now ≡ listed (Some (view value.entry.now)) }
{
    match iam_json::values(value) {
        Some(values) => values,
        None if value.is_string() => slice::from_ref(value),
        None => &[],
    }
}

/// Whether the value is a text of the form.
pub fn is_text(value: &Value, form: TextForm) -> bool
    ensures { result ≡ is_text (form_of form) (view value.now) }
{
    value.as_str().is_some_and(|text| form.fits(text))
}

/// Whether the element stands there and is no text.
pub fn is_no_text(element: Option<&Value>) -> bool
    ensures { result ≡ is_no_text (data_of element.entry) }
{
    element.is_some_and(|value| !value.is_string())
}

fn all_texts(values: &[Value], form: TextForm) -> bool
    ensures { result ≡ list_all (λ v. is_text (form_of form) (view v)) values.now }
{
    values.iter().all(|value| is_text(value, form))
}

fn are_texts(values: &[Value], form: TextForm) -> bool
    ensures { result ≡ are_texts (form_of form) (map view values.now) }
{
    !values.is_empty() && all_texts(values, form)
}

fn any_text(values: &[Value], form: TextForm) -> bool
    ensures { result ≡ list_any (λ v. is_text (form_of form) (view v)) values.now }
{
    values.iter().any(|value| is_text(value, form))
}

/// Whether the element stands there and is not one or more texts of the form.
pub fn is_bad_list(element: Option<&Value>, form: TextForm) -> bool
    ensures { result ≡ is_bad_list (form_of form) (data_of element.entry) }
{
    element.is_some() && !are_texts(listed(element), form)
}

/// Whether some text of the element has the form.
pub fn has_text(element: Option<&Value>, form: TextForm) -> bool
    ensures { result ≡ has_text (form_of form) (data_of element.entry) }
{
    any_text(listed(element), form)
}

/// Whether the element is this text.
pub fn is_this(element: Option<&Value>, text: &str) -> bool
    ensures { result ≡ is_this text.now (data_of element.entry) }
{
    element.is_some_and(|value| value.as_str().is_some_and(|found| found == text))
}

/// Whether the element is a list of more members than it may have.
pub fn is_too_long(element: Option<&Value>) -> bool
    ensures { result ≡ is_too_long (data_of element.entry) }
{
    listed(element).len() > MOST
}

/// One of two elements of a statement, such as `Action` and `NotAction`.
#[derive(Clone, Copy)]
pub struct Element<'v> {
    pub is_negated: bool,
    pub value: &'v Value,
}

/// The first of two elements, or else the second, which is the negated one.
pub fn either<'v>(one: Option<&'v Value>, negated: Option<&'v Value>) -> Option<Element<'v>>
    ensures { MatchOption result
        (neither (data_of one.entry) (data_of negated.entry) ≡ true)
        (λ e. data_of (if e.is_negated then negated.entry else one.entry) ≡ Some (view e.value.now)) }
{
    if let Some(value) = one {
        return Some(Element {
            is_negated: false,
            value,
        });
    }
    negated.map(|value| Element {
        is_negated: true,
        value,
    })
}
