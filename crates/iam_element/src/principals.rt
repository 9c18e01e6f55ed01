// The principal element of a statement.
ghost use Rattle.std.specs.Prelude.{◌≡◌, ◌++◌, IfOk, OnOk, map, string_bytes};
ghost use Rattle.std.specs.List.{filter_map};
ghost use Rattle.serde_json.specs.Find.{as_str};
ghost use Rattle.serde_json.specs.View.{view};
ghost use Rattle.iam_element.specs.Reading.{ReadsPrincipalElement, names_of, typed, PrincipalText, PrincipalElement};

use crate::OutOfMemory;
use crate::element::{either, listed, values_in};
use crate::members::Members;
use serde_json::Value;
use std::alloc::Global;
use std::marker::Model;

/// The type that a text of a principal element stands under.
#[derive(Clone, Copy, Debug, PartialEq, Eq)]
pub enum PrincipalKind {
    /// Accounts, users, roles and sessions.
    Aws,
    Service,
    Federated,
    CanonicalUser,
}

impl PrincipalKind {
    ghost use Rattle.iam_element.specs.Principal.{kind_word};

    /// The name of the type in a document.
    pub fn word(self) -> &'static str
        ensures { result.now ≡ kind_word self }
    {
        match self {
            PrincipalKind::Aws => "AWS",
            PrincipalKind::Service => "Service",
            PrincipalKind::Federated => "Federated",
            PrincipalKind::CanonicalUser => "CanonicalUser",
        }
    }
}

/// The types of principals.
pub const KINDS: [PrincipalKind; 4] = [
    PrincipalKind::Aws,
    PrincipalKind::Service,
    PrincipalKind::Federated,
    PrincipalKind::CanonicalUser,
];

/// A text of a principal element, such as an account, an ARN or `*`.
#[derive(Debug, Drop)]
pub struct PrincipalName {
    kind: PrincipalKind,
    text: String,
}

impl Model for PrincipalName {
    ghost Value = { PrincipalText };

    ghost view = { λ n. record { kind = n.kind; text = string_bytes n.text } };
}

impl PrincipalName {
    /// The type that the text stands under.
    pub fn kind(&self) -> PrincipalKind
        ensures { result ≡ self.now.kind }
    {
        self.kind
    }

    /// The text, as it is written.
    pub fn text(&self) -> &str
        ensures { result.now ≡ self.now.text }
    {
        self.text.as_str()
    }
}

/// The element `Principal` or `NotPrincipal` of a statement.
///
/// AWS IAM User Guide, "IAM JSON policy elements: Principal".
#[derive(Debug, Drop)]
pub struct Principals {
    is_negated: bool,
    names: Vec<PrincipalName>,
}

impl Model for Principals {
    ghost Value = { PrincipalElement };

    ghost view = { λ p. record { negated = p.is_negated; names = p.names.items } };
}

impl Principals {
    /// Whether the element is `NotPrincipal`.
    pub fn is_negated(&self) -> bool
        ensures { result ≡ self.now.negated }
    {
        self.is_negated
    }

    /// The texts of the element, by their types; a text alone stands under `AWS`.
    pub fn names(&self) -> &[PrincipalName]
        ensures { result.now ≡ self.now.names }
    {
        self.names.as_slice()
    }
}

/// Reads the `Principal` or the `NotPrincipal` of a statement; `None` where neither stands there.
pub fn read_principal(
    alloc: Global,
    statement: &Members<'_>,
) -> Result<Option<Principals>, OutOfMemory>
    ensures { IfOk result (λ r. ReadsPrincipalElement (view statement.now) r) }
{
    match either(statement.principal, statement.not_principal) {
        Some(element) => Ok(Some(Principals {
            is_negated: element.is_negated,
            names: names_of(alloc, element.value)?,
        })),
        None => Ok(None),
    }
}

fn names_of(alloc: Global, element: &Value) -> Result<Vec<PrincipalName>, OutOfMemory>
    ensures { IfOk result (λ names. names.items ≡ names_of (view element.now)) }
{
    let mut names = Vec::new(alloc);
    if element.is_string() {
        add_names(alloc, &mut names, PrincipalKind::Aws, values_in(element))?;
        return Ok(names);
    }
    for kind in KINDS {
        add_names(alloc, &mut names, kind, listed(element.get(kind.word())))?;
    }
    Ok(names)
}

/// Adds the texts among the values.
fn add_names(
    alloc: Global,
    names: &mut Vec<PrincipalName>,
    kind: PrincipalKind,
    values: &[Value],
) -> Result<(), OutOfMemory>
    ensures { OnOk result (names.new.items ≡ names.old.items ++ typed kind (filter_map as_str (map view values.now))) }
{
    for value in values {
        if let Some(text) = value.as_str() {
            let text = String::from_str(alloc, text)?;
            names.push(PrincipalName { kind, text })?;
        }
    }
    Ok(())
}
