// The action element of a statement.
ghost use Rattle.std.specs.Prelude.{◌≡◌, codes, false, map, IfOk, IsTrue};
ghost use Rattle.std.specs.List.{filter_map};
ghost use Rattle.serde_json.specs.Find.{as_str, get};
ghost use Rattle.serde_json.specs.View.{view};
ghost use Rattle.iam_element.specs.Element.{neither};
ghost use Rattle.iam_element.specs.Reading.{ReadsAction, pattern_of, ActionElement};

use crate::OutOfMemory;
use crate::element::{either, values_in};
use crate::members::Members;
use iam_text::Glob;
use serde_json::Value;
use std::alloc::Global;
use std::marker::Model;

/// The element `Action` or `NotAction` of a statement.
///
/// AWS IAM User Guide, "IAM JSON policy elements: Action".
#[derive(Debug, Drop)]
pub struct Actions {
    is_negated: bool,
    patterns: Vec<Glob>,
}

impl Model for Actions {
    ghost Value = { ActionElement };

    ghost view = { λ a. record { negated = a.is_negated; patterns = a.patterns.items } };
}

impl Actions {
    /// Whether the element is `NotAction`.
    pub fn is_negated(&self) -> bool
        ensures { result ≡ self.now.negated }
    {
        self.is_negated
    }

    /// The pattern of each text of the element.
    pub fn patterns(&self) -> &[Glob]
        ensures { result.now ≡ self.now.patterns }
    {
        self.patterns.as_slice()
    }

    /// `true` only where both elements are the same; `false` says nothing.
    pub fn equals(&self, other: &Actions) -> bool
        ensures { IsTrue result → self.now ≡ other.now }
    {
        self.is_negated == other.is_negated && are_same(self.patterns(), other.patterns())
    }
}

/// Reads the `Action` or the `NotAction` that stands in a statement.
pub fn read_action(alloc: Global, statement: &Members<'_>) -> Result<Actions, OutOfMemory>
    requires { neither (get (codes "Action") (view statement.now)) (get (codes "NotAction") (view statement.now)) ≡ false }
    ensures { IfOk result (λ r. ReadsAction (view statement.now) r) }
{
    let element = either(statement.action, statement.not_action).unwrap();
    Ok(Actions {
        is_negated: element.is_negated,
        patterns: patterns(alloc, values_in(element.value))?,
    })
}

/// The patterns of the texts among the values, in which `*` and `?` are wildcards.
fn patterns(alloc: Global, values: &[Value]) -> Result<Vec<Glob>, OutOfMemory>
    ensures { IfOk result (λ globs. globs.items ≡ map pattern_of (filter_map as_str (map view values.now))) }
{
    let mut globs = Vec::with_capacity(alloc, values.len())?;
    for value in values {
        if let Some(text) = value.as_str() {
            globs.push(Glob::read(alloc, text)?)?;
        }
    }
    Ok(globs)
}

/// Whether both lists have the same patterns in the same order.
fn are_same(ones: &[Glob], others: &[Glob]) -> bool
    ensures { IsTrue result → ones.now ≡ others.now }
{
    if ones.len() != others.len() {
        return false;
    }
    for i in 0..ones.len() {
        if !ones[i].is_same(&others[i]) {
            return false;
        }
    }
    true
}
