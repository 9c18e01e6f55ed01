// Whether conditions hold in contexts that agree on what is known.
ghost use Rattle.std.specs.Prelude.{◌≡◌, All, IfOk, false, true};
ghost use Rattle.std.specs.List.{flat_map};
ghost use Rattle.iam_match.specs.Entry.{EntryHolds};
ghost use Rattle.iam_open.specs.Asks.{entry_keys, is_beyond};
ghost use Rattle.iam_open.specs.Code.Certain.{IfOpen, Tells, UnlessNever};
ghost use Rattle.iam_open.specs.Code.Known.{AgreeOn, Follows};

use crate::beyond::entry_beyond;
use crate::certain::Certain;
use crate::known::Known;
use crate::time::time_certain;
use crate::unmet::is_unmet;
use iam_condition::Entry;
use iam_context::Context;
use iam_match::{OutOfMemory, holds};
use iam_unasked::unasked_keys;
use std::alloc::Global;

/// Whether every entry holds in the contexts that agree with this one on the keys that are known, and are at no earlier moment.
///
/// AWS IAM User Guide, "IAM JSON policy elements: Condition".
pub fn conditions_certain<'c>(
    alloc: Global,
    entries: &'c [Entry],
    context: &Context<'c>,
    known: &Known<'_>,
) -> Result<Certain, OutOfMemory>
    ensures told { IfOk result (λ certain. Tells certain (Follows known.now context.now) (λ other. All (EntryHolds other) entries.now)) }
    ensures asks { IfOk result (λ certain. IfOpen certain (is_beyond known.now (flat_map entry_keys entries.now) ≡ true)) }
    ensures closed { IfOk result (λ certain. UnlessNever certain
        (All (λ entry. is_beyond known.now (entry_keys entry) ≡ false → EntryHolds context.now entry) entries.now)) }
{
    let mut certain = Certain::Always;
    for entry in entries {
        certain = certain.and(entry_from(alloc, entry, context, known)?);
    }
    Ok(certain)
}

/// Whether the entry holds in these contexts: a date that is past stays so.
fn entry_from<'c>(
    alloc: Global,
    entry: &'c Entry,
    context: &Context<'c>,
    known: &Known<'_>,
) -> Result<Certain, OutOfMemory>
    ensures told { IfOk result (λ certain. Tells certain (Follows known.now context.now) (λ other. EntryHolds other entry.now)) }
    ensures asks { IfOk result (λ certain. IfOpen certain (is_beyond known.now (entry_keys entry.now) ≡ true)) }
    ensures closed { IfOk result (λ certain. UnlessNever certain (is_beyond known.now (entry_keys entry.now) ≡ false → EntryHolds context.now entry.now)) }
{
    match entry_certain(alloc, entry, context, known)? {
        Certain::Open => Ok(time_certain(entry, context)),
        certain => Ok(certain),
    }
}

/// The same of an entry that asks for a key that is not known: never, where no value of a key meets it.
fn beyond_certain<'c>(
    alloc: Global,
    entry: &'c Entry,
    context: &Context<'c>,
    known: &Known<'_>,
) -> Result<Certain, OutOfMemory>
    ensures told { IfOk result (λ certain. Tells certain (AgreeOn known.now context.now) (λ other. EntryHolds other entry.now)) }
{
    if is_unmet(alloc, entry, context, known)? {
        return Ok(Certain::Never);
    }
    Ok(Certain::Open)
}

/// Whether the entry holds in the contexts that agree with this one on the keys that are known.
pub fn entry_certain<'c>(
    alloc: Global,
    entry: &'c Entry,
    context: &Context<'c>,
    known: &Known<'_>,
) -> Result<Certain, OutOfMemory>
    ensures told { IfOk result (λ certain. Tells certain (AgreeOn known.now context.now) (λ other. EntryHolds other entry.now)) }
    ensures asks { IfOk result (λ certain. IfOpen certain (is_beyond known.now (entry_keys entry.now) ≡ true)) }
{
    unasked_keys();
    if entry_beyond(entry, context, known) {
        return beyond_certain(alloc, entry, context, known);
    }
    Ok(Certain::of(holds(alloc, entry, context)?))
}
