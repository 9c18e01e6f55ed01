// The members of a statement.
use serde_json::Value;
use std::marker::Model;

/// The document of a statement, and its members, each of which is sought once.
#[derive(Drop)]
pub struct Members<'v> {
    pub document: &'v Value,
    pub sid: Option<&'v Value>,
    pub effect: Option<&'v Value>,
    pub action: Option<&'v Value>,
    pub not_action: Option<&'v Value>,
    pub resource: Option<&'v Value>,
    pub not_resource: Option<&'v Value>,
    pub principal: Option<&'v Value>,
    pub not_principal: Option<&'v Value>,
    pub condition: Option<&'v Value>,
}

impl<'v> Model for Members<'v> {
    ghost use Rattle.std.specs.Coded.{codes};
    ghost use Rattle.serde_json.specs.contracts.value.Value as value;
    ghost use Rattle.serde_json.specs.declared.value.Value.{Value as Json};
    ghost use Rattle.iam_element.specs.Code.Members.{AreMembers};

    ghost Value = { Json };

    ghost coded = { Prim.hlevel (codes, value.the_row.coded) };

    ghost view = { λ m. m.document.now };

    ghost invariant = { λ m. AreMembers m.document.now m.sid m.effect m.action m.not_action m.resource m.not_resource
        m.principal m.not_principal m.condition };
}

impl<'v> Members<'v> {
    ghost use Rattle.std.specs.Prelude.{◌≡◌};

    /// The members of a statement's document.
    pub fn of(document: &'v Value) -> Members<'v>
        ensures { result ≡ document.entry.now }
    {
        Members {
            document,
            sid: document.get("Sid"),
            effect: document.get("Effect"),
            action: document.get("Action"),
            not_action: document.get("NotAction"),
            resource: document.get("Resource"),
            not_resource: document.get("NotResource"),
            principal: document.get("Principal"),
            not_principal: document.get("NotPrincipal"),
            condition: document.get("Condition"),
        }
    }
}
