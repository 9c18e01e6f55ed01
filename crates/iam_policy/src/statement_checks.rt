// Tests on one statement.
ghost use Rattle.std.specs.Prelude.{◌≡◌, ◌↔◌, ◌||◌, codes, IfOk, IsTrue};
ghost use Rattle.serde_json.specs.Find.{get};
ghost use Rattle.serde_json.specs.View.{view};
ghost use Rattle.iam_json.specs.Look.{has_unknown};
ghost use Rattle.iam_policy.specs.Code.First.{condition_line};
ghost use Rattle.iam_element.specs.Grammar.{form_of};
ghost use Rattle.iam_element.specs.Element.{both, neither, stands_as, is_bad_list};
ghost use Rattle.iam_element.specs.Code.Members.{data_of};
ghost use Rattle.iam_policy.specs.Fault.{HasBadValueIn, statement_names, allows_by_not_principal, has_bad_principal, has_long_list, has_principal, names_everyone};

use crate::OutOfMemory;
use crate::fault::Fault;
use iam_condition::{has_bad_text, has_many_values, has_unknown_operator, is_bad_form};
use iam_element::{
    Members, TextForm, has_both, has_long_kind, has_neither, is_bad_list, is_bad_principal,
    is_everyone, is_this, is_too_long,
};
use iam_json::has_unknown;
use iam_text::Version;
use serde_json::Value;
use std::alloc::Global;

/// Whether the statement has a member that it does not know.
pub fn has_unknown_member(statement: &Members<'_>) -> bool
    ensures { result ≡ has_unknown statement_names (view statement.now) }
{
    has_unknown(
        statement.document,
        &[
            "Sid",
            "Effect",
            "Action",
            "NotAction",
            "Resource",
            "NotResource",
            "Principal",
            "NotPrincipal",
            "Condition",
        ],
    )
}

/// One line of the table for a `Condition` in a document of the version.
fn condition_line(condition: &Value, version: Version, fault: Fault) -> bool
    ensures { result ≡ condition_line version fault (view condition.now) }
{
    match fault {
        Fault::BadVariable => has_bad_text(condition, version),
        Fault::UnknownOperator => has_unknown_operator(condition),
        Fault::BadCondition => is_bad_form(condition),
        Fault::TooMany => has_many_values(condition),
        _ => false,
    }
}

/// Whether `Condition` stands there, and that line of the table holds of it.
pub fn condition_has(statement: &Members<'_>, version: Version, fault: Fault) -> bool
    ensures { result ≡ stands_as (condition_line version fault) (get (codes "Condition") (view statement.now)) }
{
    statement
        .condition
        .is_some_and(|condition| condition_line(condition, version, fault))
}

/// Whether a value of `Condition` is off the grammar of its operator.
pub fn has_bad_value(alloc: Global, statement: &Members<'_>) -> Result<bool, OutOfMemory>
    ensures { IfOk result (λ bad. IsTrue bad ↔ HasBadValueIn (view statement.now)) }
{
    match statement.condition {
        Some(condition) => iam_condition::has_bad_value(alloc, condition),
        None => Ok(false),
    }
}

/// Whether not exactly one of `Action` and `NotAction` stands there.
pub fn has_no_single_action(statement: &Members<'_>) -> bool
    ensures { result ≡ (both (get (codes "Action") (view statement.now)) (get (codes "NotAction") (view statement.now))
        || neither (get (codes "Action") (view statement.now)) (get (codes "NotAction") (view statement.now))) }
{
    has_both(statement.action, statement.not_action)
        || has_neither(statement.action, statement.not_action)
}

/// Whether one of the two elements stands there and is not one or more texts of the form.
pub fn has_bad_list(one: Option<&Value>, other: Option<&Value>, form: TextForm) -> bool
    ensures { result ≡ (is_bad_list (form_of form) (data_of one.entry) || is_bad_list (form_of form) (data_of other.entry)) }
{
    is_bad_list(one, form) || is_bad_list(other, form)
}

/// Whether one of the principal elements stands there.
pub fn has_principal(statement: &Members<'_>) -> bool
    ensures { result ≡ has_principal (view statement.now) }
{
    statement.principal.is_some() || statement.not_principal.is_some()
}

/// Whether both of the principal elements stand there, or one that is off the principal grammar.
pub fn has_bad_principal(statement: &Members<'_>) -> bool
    ensures { result ≡ has_bad_principal (view statement.now) }
{
    has_both(statement.principal, statement.not_principal)
        || is_bad_principal(statement.principal)
        || is_bad_principal(statement.not_principal)
}

/// Whether `NotPrincipal` stands there in a statement that allows.
pub fn allows_by_not_principal(statement: &Members<'_>) -> bool
    ensures { result ≡ allows_by_not_principal (view statement.now) }
{
    statement.not_principal.is_some() && is_this(statement.effect, "Allow")
}

/// Whether `Principal` is everyone, `*` alone or under `AWS`, and `NotPrincipal` does not stand there.
pub fn names_everyone(statement: &Members<'_>) -> bool
    ensures { result ≡ names_everyone (view statement.now) }
{
    is_everyone(statement.principal) && statement.not_principal.is_none()
}

/// Whether a list of the statement has more members than it may have.
pub fn has_too_many(statement: &Members<'_>) -> bool
    ensures { result ≡ has_long_list (view statement.now) }
{
    is_too_long(statement.action)
        || is_too_long(statement.not_action)
        || is_too_long(statement.resource)
        || is_too_long(statement.not_resource)
        || has_long_kind(statement.principal)
        || has_long_kind(statement.not_principal)
}
