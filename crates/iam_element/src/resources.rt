// The resource element of a statement.
ghost use Rattle.std.specs.Prelude.{◌≡◌, IfOk, IsTrue, false, true, map};
ghost use Rattle.std.specs.List.{AllZip, filter_map, list_any};
ghost use Rattle.serde_json.specs.Find.{as_str};
ghost use Rattle.serde_json.specs.View.{view};
ghost use Rattle.iam_text.specs.Draft.{IsDraftIn};
ghost use Rattle.iam_element.specs.Element.{is_text};
ghost use Rattle.iam_element.specs.Grammar.{is_bad_variable, has_bad_variable};
ghost use Rattle.iam_element.specs.Reading.{ReadsResourceElement, ResourceElement};

use crate::OutOfMemory;
use crate::element::{either, has_text, values_in};
use crate::grammar::TextForm;
use crate::members::Members;
use iam_text::{Template, Version};
use serde_json::Value;
use std::alloc::Global;
use std::marker::Model;

/// The element `Resource` or `NotResource` of a statement.
///
/// AWS IAM User Guide, "IAM JSON policy elements: Resource".
#[derive(Debug, Drop)]
pub struct Resources {
    is_negated: bool,
    texts: Vec<Template>,
}

impl Model for Resources {
    ghost Value = { ResourceElement };

    ghost view = { λ r. record { negated = r.is_negated; texts = r.texts.items } };
}

impl Resources {
    /// Whether the element is `NotResource`.
    pub fn is_negated(&self) -> bool
        ensures { result ≡ self.now.negated }
    {
        self.is_negated
    }

    /// Each text of the element, with its variables.
    pub fn texts(&self) -> &[Template]
        ensures { result.now ≡ self.now.texts }
    {
        self.texts.as_slice()
    }

    /// `true` only where both elements are the same; `false` says nothing.
    pub fn equals(&self, other: &Resources) -> bool
        ensures { IsTrue result → self.now ≡ other.now }
    {
        self.is_negated == other.is_negated && are_same(self.texts(), other.texts())
    }

    /// A number that tells most elements apart. Nothing is claimed of it.
    pub fn print(&self) -> u64 {
        let mut print: u64 = if self.is_negated { 1 } else { 0 };
        for text in self.texts() {
            print = text.print(print);
        }
        print
    }
}

/// Reads the `Resource` or the `NotResource` of a statement without a bad variable, in a document of the version; `None`
/// where neither stands there.
pub fn read_resource(
    alloc: Global,
    statement: &Members<'_>,
    version: Version,
) -> Result<Option<Resources>, OutOfMemory>
    requires { has_bad_variable version (view statement.now) ≡ false }
    ensures { IfOk result (λ r. ReadsResourceElement version (view statement.now) r) }
{
    match either(statement.resource, statement.not_resource) {
        Some(element) => Ok(Some(Resources {
            is_negated: element.is_negated,
            texts: templates(alloc, values_in(element.value), version)?,
        })),
        None => Ok(None),
    }
}

/// Whether a text of `Resource` or `NotResource` has a variable off the grammar of the version, or one that stands too
/// early.
pub fn has_bad_variable(statement: &Members<'_>, version: Version) -> bool
    ensures { result ≡ has_bad_variable version (view statement.now) }
{
    let form = TextForm::BadVariable(version);
    has_text(statement.resource, form) || has_text(statement.not_resource, form)
}

/// The templates of the texts among the values.
fn templates(
    alloc: Global,
    values: &[Value],
    version: Version,
) -> Result<Vec<Template>, OutOfMemory>
    requires { list_any (is_text (is_bad_variable version)) (map view values.now) ≡ false }
    ensures { IfOk result (λ templates. AllZip (IsDraftIn version true) (filter_map as_str (map view values.now)) templates.items) }
{
    let mut templates = Vec::with_capacity(alloc, values.len())?;
    for value in values {
        if let Some(text) = value.as_str() {
            templates.push(Template::of(alloc, text, true, version)?)?;
        }
    }
    Ok(templates)
}

/// `true` only where both lists have the same texts in the same order.
fn are_same(ones: &[Template], others: &[Template]) -> bool
    ensures { IsTrue result → ones.now ≡ others.now }
{
    if ones.len() != others.len() {
        return false;
    }
    for i in 0..ones.len() {
        if !ones[i].is_same(&others[i]) {
            return false;
        }
    }
    true
}
