// The faults of a document and of its statements, in the order in which they are tried.
ghost use Rattle.std.specs.Prelude.{◌≡◌, ℕ};
ghost use Rattle.serde_json.specs.Data.{Data};
ghost use Rattle.serde_json.specs.View.{view};
ghost use Rattle.iam_policy.specs.Code.First.{IsPlaceOf, document_fault, fault_of, line_has};
ghost use Rattle.iam_policy.specs.Fault.{document_line, principal_line, statement_line, document_has, statement_has};

use crate::document_checks::{has_unknown_element, is_bad_statement, statements_in};
use crate::effect::effect_of;
use crate::fault::{Fault, Kind, PrincipalRule};
use crate::statement_checks::{
    allows_by_not_principal, condition_has, has_bad_list, has_bad_principal, has_no_single_action,
    has_principal, has_too_many, has_unknown_member, names_everyone,
};
use crate::version::version_named;
use iam_element::{MOST, Members, TextForm, has_bad_variable, has_both, has_neither, is_no_text};
use iam_text::Version;
use serde_json::Value;

/// All faults but want of memory, in the order of their numbers.
const TABLE: [Fault; 21] = [
    Fault::NotObject,
    Fault::UnknownElement,
    Fault::BadVersion,
    Fault::NoStatement,
    Fault::BadStatement,
    Fault::BadSid,
    Fault::DuplicateSid,
    Fault::BadEffect,
    Fault::ActionCount,
    Fault::BadAction,
    Fault::PrincipalMisplaced,
    Fault::PrincipalMissing,
    Fault::BadPrincipal,
    Fault::NotPrincipalAllow,
    Fault::ResourceCount,
    Fault::BadResource,
    Fault::BadVariable,
    Fault::UnknownOperator,
    Fault::BadCondition,
    Fault::BadValue,
    Fault::TooMany,
];

/// What the lines of the table ask of a statement's document.
#[derive(Clone, Copy)]
pub struct StatementPlace {
    pub kind: Kind,
    pub version: Version,
    /// Whether an earlier statement has the same `Sid`.
    pub repeats: bool,
}

/// One line of the table for a document that is an object.
fn document_line(document: &Value, kind: Kind, fault: Fault) -> bool
    ensures { result ≡ document_line kind (view document.now) fault }
{
    match fault {
        Fault::UnknownElement => has_unknown_element(document) || is_no_text(document.get("Id")),
        Fault::BadVersion => version_named(document).is_none(),
        Fault::NoStatement => document.get("Statement").is_none(),
        Fault::BadStatement => is_bad_statement(document),
        Fault::TooMany => statements_in(document).len() > MOST,
        _ => false,
    }
}

/// One line of the table for the principal elements of a statement.
fn principal_line(statement: &Members<'_>, rule: PrincipalRule, fault: Fault) -> bool
    ensures { result ≡ principal_line rule (view statement.now) fault }
{
    match (rule, fault) {
        (PrincipalRule::Nobody, Fault::PrincipalMisplaced) => has_principal(statement),
        (PrincipalRule::Somebody, Fault::PrincipalMissing) => !has_principal(statement),
        (PrincipalRule::Somebody, Fault::BadPrincipal) => has_bad_principal(statement),
        (PrincipalRule::Somebody, Fault::NotPrincipalAllow) => allows_by_not_principal(statement),
        (PrincipalRule::Everyone, Fault::BadPrincipal) => !names_everyone(statement),
        _ => false,
    }
}

/// One line of the table for a statement that is an object.
fn statement_line(statement: &Members<'_>, place: StatementPlace, fault: Fault) -> bool
    ensures { (d : Data) (i : ℕ) → IsPlaceOf d i (view statement.now) place
        → result ≡ statement_line place.kind d i (view statement.now) fault }
{
    match fault {
        Fault::UnknownElement => has_unknown_member(statement),
        Fault::BadSid => is_no_text(statement.sid),
        Fault::DuplicateSid => place.kind.wants_distinct_sids() && place.repeats,
        Fault::BadEffect => effect_of(statement).is_none(),
        Fault::ActionCount => has_no_single_action(statement),
        Fault::BadAction => has_bad_list(statement.action, statement.not_action, TextForm::Action),
        Fault::PrincipalMisplaced
        | Fault::PrincipalMissing
        | Fault::BadPrincipal
        | Fault::NotPrincipalAllow => principal_line(statement, place.kind.principal_rule(), fault),
        Fault::ResourceCount => {
            has_both(statement.resource, statement.not_resource)
                || place.kind.wants_resource()
                    && has_neither(statement.resource, statement.not_resource)
        }
        Fault::BadResource => has_bad_list(
            statement.resource,
            statement.not_resource,
            TextForm::Resource,
        ),
        Fault::BadVariable => {
            has_bad_variable(statement, place.version)
                || condition_has(statement, place.version, fault)
        }
        Fault::UnknownOperator | Fault::BadCondition => {
            condition_has(statement, place.version, fault)
        }
        Fault::TooMany => {
            has_too_many(statement) || condition_has(statement, place.version, fault)
        }
        _ => false,
    }
}

fn document_has(document: &Value, kind: Kind, fault: Fault) -> bool
    ensures { result ≡ document_has kind (view document.now) fault }
{
    if document.is_object() {
        document_line(document, kind, fault)
    } else {
        fault == Fault::NotObject
    }
}

fn statement_has(statement: &Members<'_>, place: StatementPlace, fault: Fault) -> bool
    ensures { (d : Data) (i : ℕ) → IsPlaceOf d i (view statement.now) place
        → result ≡ statement_has place.kind d i (view statement.now) fault }
{
    if statement.document.is_object() {
        statement_line(statement, place, fault)
    } else {
        fault == Fault::BadStatement
    }
}

/// The first fault of the document itself.
pub fn document_fault(document: &Value, kind: Kind) -> Option<Fault>
    ensures { result ≡ document_fault kind (view document.now) }
{
    TABLE
        .iter()
        .copied()
        .find(|&fault| document_has(document, kind, fault))
}

/// One line of the table for a statement. `bad_value` is whether a value of its condition is off its grammar.
fn line_has(statement: &Members<'_>, place: StatementPlace, bad_value: bool, fault: Fault) -> bool
    ensures { (d : Data) (i : ℕ) → IsPlaceOf d i (view statement.now) place
        → result ≡ line_has place.kind d i (view statement.now) bad_value fault }
{
    statement_has(statement, place, fault) || fault == Fault::BadValue && bad_value
}

/// The first fault of a statement.
#[tactic(auto, unfolding(crate::specs::Code::First::fault_of))]
pub fn statement_fault(
    statement: &Members<'_>,
    place: StatementPlace,
    bad_value: bool,
) -> Option<Fault>
    ensures { (d : Data) (i : ℕ) → IsPlaceOf d i (view statement.now) place
        → result ≡ fault_of place.kind d i (view statement.now) bad_value }
{
    for fault in TABLE {
        if line_has(statement, place, bad_value, fault) {
            return Some(fault);
        }
    }
    None
}
