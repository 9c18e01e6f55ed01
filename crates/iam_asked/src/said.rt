// What a line says: a JSON object with three texts and maybe a context.
ghost use Rattle.std.specs.Prelude.{◌≡◌, ◌≢◌, ℕ, IfErr, IfOk, MatchOption, option_and_then, option_map, true};
ghost use Rattle.std.specs.Option.{option_map_or};
ghost use Rattle.serde_json.specs.Data.{Data};
ghost use Rattle.serde_json.specs.Find.{get};
ghost use Rattle.serde_json.specs.View.{view};
ghost use Rattle.iam_json.specs.Look.{has_unknown};
ghost use Rattle.iam_shape.specs.Shape.{is_context};
ghost use Rattle.iam_world.specs.WorldFault.{IsJson};
ghost use Rattle.iam_asked.specs.Code.Lent.{said_of};
ghost use Rattle.iam_asked.specs.Said.{IsSaid, IsShort, SaidValue, member_names, text_at};
ghost use Rattle.iam_asked.specs.Code.Unread.{IsUnread};
ghost use Rattle.iam_asked.specs.declared.fault.LineFault.TheVariants as l;

use crate::fault::LineFault;
use iam_json::has_unknown;
use iam_shape::is_context;
use serde_json::Value;
use std::alloc::Global;

/// The most bytes that a line may have.
pub const MOST_BYTES: usize = 8_388_608;

/// What a line says, lent from its JSON value.
#[derive(Clone, Copy)]
pub struct Said<'v> {
    pub principal: &'v str,
    pub action: &'v str,
    pub resource: &'v str,
    /// The keys that the request gives itself.
    pub context: Option<&'v Value>,
}

/// The JSON value of a line.
pub fn parse(alloc: Global, line: &[u8]) -> Result<Value, LineFault>
    ensures ok { IfOk result (λ value. IsShort line.now × IsJson line.now (view value)) }
    ensures fault { IfErr result (λ fault. fault ≢ l.OutOfMemory → IsUnread line.now fault) }
{
    if line.len() > MOST_BYTES {
        return Err(LineFault::BadShape);
    }
    match Value::from_slice(alloc, line) {
        Ok(value) => Ok(value),
        Err(error) if error.is_memory() => Err(LineFault::OutOfMemory),
        Err(_) => Err(LineFault::NotJson),
    }
}

/// The text that stands under this name.
pub fn text_at<'v>(of: &'v Value, name: &str) -> Option<&'v str>
    ensures { option_map (λ text. text.now) result ≡ text_at name.now (view of.entry.now) }
{
    of.get(name)?.as_str()
}

/// Whether there is no context, or one of the right shape.
fn has_context(context: Option<&Value>) -> bool
    ensures { result ≡ option_map_or is_context (option_map (λ v. view v.now) context.entry) true }
{
    match context {
        Some(context) => is_context(context),
        None => true,
    }
}

/// Whether the object has a member that a request does not have.
fn has_other(of: &Value) -> bool
    ensures { result ≡ has_unknown member_names (view of.now) }
{
    has_unknown(of, &["principal", "action", "resource", "context"])
}

/// What a JSON value of the shape of a request says; `None` of any other.
pub fn read_said(of: &Value) -> Option<Said<'_>>
    ensures { MatchOption result ((said : SaidValue) → ¬ IsSaid (view of.entry.now) said) (λ said. IsSaid (view of.entry.now) (said_of said)) }
{
    let principal = text_at(of, "principal")?;
    let action = text_at(of, "action")?;
    let resource = text_at(of, "resource")?;
    let context = of.get("context");
    if !has_context(context) || has_other(of) {
        return None;
    }
    Some(Said {
        principal,
        action,
        resource,
        context,
    })
}
