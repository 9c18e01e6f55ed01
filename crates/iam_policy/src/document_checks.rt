// Tests on a document as a whole.
ghost use Rattle.std.specs.Prelude.{◌≡◌, map, codes, Some};
ghost use Rattle.serde_json.specs.Find.{get};
ghost use Rattle.serde_json.specs.View.{view};
ghost use Rattle.iam_json.specs.Look.{has_unknown};
ghost use Rattle.iam_element.specs.Element.{stands_as};
ghost use Rattle.iam_policy.specs.Fault.{document_names, is_bad_statement, statements_under, statements_in};

use iam_json::{has_unknown, values};
use serde_json::Value;
use std::slice;

/// The statements of a document, where one object stands for a list of one.
pub fn statements_in(document: &Value) -> &[Value]
    ensures { map view result.now ≡ statements_in (view document.entry.now) }
{
    document.get("Statement").map_or(&[], objects_in)
}

fn objects_in(value: &Value) -> &[Value]
    ensures { map view result.now ≡ statements_under (Some (view value.entry.now)) }
{
    match values(value) {
        Some(values) => values,
        None if value.is_object() => slice::from_ref(value),
        None => &[],
    }
}

/// Whether the document has a member that it does not know.
pub fn has_unknown_element(document: &Value) -> bool
    ensures { result ≡ has_unknown document_names (view document.now) }
{
    has_unknown(document, &["Version", "Id", "Statement"])
}

/// Whether `Statement` stands there, and is neither an object nor a list.
pub fn is_bad_statement(document: &Value) -> bool
    ensures { result ≡ stands_as is_bad_statement (get (codes "Statement") (view document.now)) }
{
    document
        .get("Statement")
        .is_some_and(|value| values(value).is_none() && !value.is_object())
}
