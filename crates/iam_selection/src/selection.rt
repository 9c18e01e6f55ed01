// What is asked of a matrix.
ghost use Rattle.std.specs.Prelude.{◌↔◌, IsTrue};
ghost use Rattle.iam_selection.specs.Selection.{IsWanted, SelectionValue};

use iam_layers::Decision;
use iam_text::{Glob, Items};
use std::marker::Model;

/// Patterns of principals, of actions and of resources, and decisions: a row is asked for where each of its texts matches one
/// of the patterns, and its decision is one of these. An empty list says nothing, and all are meant.
#[derive(Debug, Drop)]
pub struct Selection {
    /// Patterns of what stands for principals in reports: the ARN of a user, or of a session.
    pub principals: Items<Glob>,
    /// Patterns of actions, which match without regard to case.
    pub actions: Items<Glob>,
    /// Patterns of ARNs of resources.
    pub resources: Items<Glob>,
    pub decisions: Items<Decision>,
}

impl Model for Selection {
    ghost Value = { SelectionValue };

    ghost view = { λ selection. record { principals = selection.principals; actions = selection.actions; resources = selection.resources; decisions = selection.decisions } };
}

impl Selection {
    /// Whether rows with a decision are asked for.
    pub(crate) fn wants(&self, decision: Decision) -> bool
        ensures { IsTrue result ↔ IsWanted self.now decision }
    {
        let decisions = self.decisions.as_slice();
        decisions.is_empty() || decisions.iter().any(|&said| said == decision)
    }
}
