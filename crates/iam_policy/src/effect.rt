// The effect of a statement.
ghost use Rattle.std.specs.Prelude.{◌≡◌};
ghost use Rattle.serde_json.specs.View.{view};
ghost use Rattle.iam_policy.specs.Statement.{effect_of};

use iam_element::Members;

/// What a statement says of the requests that it matches.
#[derive(Clone, Copy, Debug, PartialEq, Eq)]
pub enum Effect {
    Allow,
    Deny,
}

/// The effect of a statement, where it has one.
pub fn effect_of(statement: &Members<'_>) -> Option<Effect>
    ensures { result ≡ effect_of (view statement.now) }
{
    match statement.effect?.as_str()? {
        "Allow" => Some(Effect::Allow),
        "Deny" => Some(Effect::Deny),
        _ => None,
    }
}
