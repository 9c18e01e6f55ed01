// Tests on the principal element.
ghost use Rattle.std.specs.Prelude.{◌≡◌, ◌||◌, not, map, is_some};
ghost use Rattle.std.specs.List.{list_any};
ghost use Rattle.serde_json.specs.Find.{get};
ghost use Rattle.serde_json.specs.View.{view};
ghost use Rattle.iam_json.specs.Look.{has_unknown};
ghost use Rattle.iam_element.specs.Grammar.{form_of};
ghost use Rattle.iam_element.specs.Element.{stands_as, is_too_long};
ghost use Rattle.iam_element.specs.Code.Members.{data_of};
ghost use Rattle.iam_element.specs.Principal.{principal_kinds, kind_word, name_test, is_bad_kind, has_principals, is_everyone, is_principal, is_single_star, is_star, has_long_kind};

use crate::element::{is_bad_list, is_too_long, listed};
use crate::grammar::TextForm;
use crate::principals::{KINDS, PrincipalKind};
use iam_json::has_unknown;
use serde_json::Value;

/// Whether the element stands there and is off the principal grammar.
pub fn is_bad_principal(element: Option<&Value>) -> bool
    ensures { result ≡ stands_as (λ p. not (is_principal p)) (data_of element.entry) }
{
    element.is_some_and(|element| !is_principal(element))
}

fn is_principal(element: &Value) -> bool
    ensures { result ≡ is_principal (view element.now) }
{
    is_star(element) || has_principals(element)
}

fn has_principals(element: &Value) -> bool
    ensures { result ≡ has_principals (view element.now) }
{
    has_kind(element) && !has_unknown_kind(element) && !has_bad_kind(element)
}

fn has_kind(element: &Value) -> bool
    ensures { result ≡ list_any (λ kind. is_some (get (kind_word kind) (view element.now))) principal_kinds }
{
    KINDS.iter().any(|kind| element.get(kind.word()).is_some())
}

fn has_unknown_kind(element: &Value) -> bool
    ensures { result ≡ has_unknown (map kind_word principal_kinds) (view element.now) }
{
    has_unknown(element, &["AWS", "Service", "Federated", "CanonicalUser"])
}

fn has_bad_kind(element: &Value) -> bool
    ensures { result ≡ list_any (is_bad_kind (view element.now)) principal_kinds }
{
    KINDS.iter().any(|&kind| is_bad_list(element.get(kind.word()), form_of(kind)))
}

fn form_of(kind: PrincipalKind) -> TextForm
    ensures { form_of result ≡ name_test kind }
{
    match kind {
        PrincipalKind::Aws => TextForm::AwsName,
        _ => TextForm::AnyName,
    }
}

/// Whether the element stands there and is `*`, alone or as the one text under `AWS` and no other type.
pub fn is_everyone(element: Option<&Value>) -> bool
    ensures { result ≡ stands_as is_everyone (data_of element.entry) }
{
    element.is_some_and(names_everyone)
}

fn names_everyone(element: &Value) -> bool
    ensures { result ≡ is_everyone (view element.now) }
{
    is_star(element)
        || is_single_star(listed(element.get("AWS"))) && !has_unknown(element, &["AWS"])
}

fn is_star(value: &Value) -> bool
    ensures { result ≡ is_star (view value.now) }
{
    value.as_str().is_some_and(|text| text == "*")
}

fn is_single_star(values: &[Value]) -> bool
    ensures { result ≡ is_single_star (map view values.now) }
{
    match values {
        [value] => is_star(value),
        _ => false,
    }
}

/// Whether the element has a type with more texts than it may have.
pub fn has_long_kind(element: Option<&Value>) -> bool
    ensures { result ≡ stands_as has_long_kind (data_of element.entry) }
{
    element.is_some_and(is_long)
}

fn is_long(element: &Value) -> bool
    ensures { result ≡ has_long_kind (view element.now) }
{
    KINDS
        .iter()
        .any(|kind| is_too_long(element.get(kind.word())))
}
