// The ids of statements, each of which may stand once.
ghost use Rattle.std.specs.Prelude.{◌≡◌, ℕ, List, ◌++◌, IfOk, option_map};
ghost use Rattle.std.specs.Option.{option_to_list};
ghost use Rattle.serde_json.specs.View.{view};
ghost use Rattle.iam_policy.specs.Code.Sids.{HasSids};
ghost use Rattle.iam_policy.specs.Statement.{sid_of};
ghost use Rattle.iam_policy.specs.Fault.{repeats_sid};

use crate::OutOfMemory;
use iam_element::Members;
use std::collections::BTreeSet;

/// The `Sid` of a statement, where it is a text.
pub fn sid_of<'v>(statement: &Members<'v>) -> Option<&'v str>
    ensures { option_map (λ t. t.now) result ≡ sid_of (view statement.now) }
{
    statement.sid?.as_str()
}

/// Adds the `Sid` of a statement; whether it is not empty and was there.
pub fn note_sid<'v>(
    sids: &mut BTreeSet<&'v str>,
    statement: &Members<'v>,
) -> Result<bool, OutOfMemory>
    ensures { IfOk result (λ repeats. (earlier : List (List ℕ)) → HasSids sids.old earlier
        → (repeats ≡ repeats_sid earlier (view statement.now))
        × HasSids sids.new (earlier ++ option_to_list (sid_of (view statement.now)))) }
{
    match sid_of(statement) {
        Some(sid) => {
            let is_new = sids.insert(sid)?;
            Ok(!sid.is_empty() && !is_new)
        }
        None => Ok(false),
    }
}
