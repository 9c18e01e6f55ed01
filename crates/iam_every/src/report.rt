// The report on all names, made by many workers.
ghost use Rattle.std.specs.Prelude.{◌≡◌, ◌↔◌, ◌<◌, ◌≤◌, All, Any, IfErr, IfOk, IsTrue, length, string_bytes};
ghost use Rattle.std.specs.List.{flat_map};
ghost use Rattle.iam_every.specs.Code.Texts.{named_in};
ghost use Rattle.iam_every.specs.Every.{AreThere, every_of};
ghost use Rattle.iam_every.specs.Report.{IsEveryReport, IsTooLong, TellsRows, TellsUnshown, rows_text};
ghost use Rattle.iam_every.specs.declared.report.EveryFault.TheVariants.{TooMany};

use crate::asked::Asked;
use crate::crew::{Chosen, chosen_of_all};
use crate::row_text::rows_text;
use crate::text::EveryText;
use iam_crew::Gate;
use iam_decision::Decision;
use iam_layers::World;
use iam_match::OutOfMemory;
use iam_row::{Format, opening};
use std::alloc::Global;
use std::thread::Threads;

/// How many rows there may be.
const ROWS: usize = 16_777_216;

/// Why there is no report.
#[derive(Clone, Copy, Debug, PartialEq, Eq)]
pub enum EveryFault {
    /// It would have over 16,777,216 rows.
    TooMany,
    /// Memory was refused.
    OutOfMemory,
}

impl From<OutOfMemory> for EveryFault {
    ghost use Rattle.std.specs.Prelude.{◌≡◌};
    ghost use Rattle.iam_every.specs.declared.report.EveryFault.TheVariants.{OutOfMemory};

    ghost from_gives = { λ _ fault. fault ≡ OutOfMemory };

    fn from(_: OutOfMemory) -> EveryFault {
        EveryFault::OutOfMemory
    }
}

/// The report on all names, and what is told beside it.
#[derive(Drop)]
pub struct EveryAnswer {
    pub text: EveryText,
    /// Whether a principal has rows, whatever is asked for.
    pub some: bool,
    /// Whether a line could not be shown for a principal.
    pub unshown: bool,
}

/// Whether there are no more rows than there may be.
fn are_few(all: &[Chosen]) -> bool
    ensures { IsTrue result ↔ (length (flat_map (λ chosen. chosen.rows) all.now) ≤ 16777216) }
{
    let mut count = 0;
    for chosen in all {
        count += chosen.rows.as_slice().len();
        if count > ROWS {
            return false;
        }
    }
    true
}

/// Whether one of the principals has rows.
fn has_some(all: &[Chosen]) -> bool
    ensures { IsTrue result ↔ Any (λ chosen. IsTrue chosen.some) all.now }
{
    all.iter().any(|chosen| chosen.some)
}

/// Whether one of them has rows that are not shown.
fn has_unshown(all: &[Chosen]) -> bool
    ensures { IsTrue result ↔ Any (λ chosen. IsTrue chosen.unshown) all.now }
{
    all.iter().any(|chosen| chosen.unshown)
}

/// The texts of the rows of each principal, numbered from the first on. The rows are let go as their texts are made.
fn texts(
    alloc: Global,
    world: &World,
    all: Vec<Chosen>,
    format: Format,
    brief: bool,
) -> Result<Vec<String>, OutOfMemory>
    requires known { All (λ chosen. chosen.principal < length world.now.principals) all.items }
    requires few { length (flat_map (λ chosen. chosen.rows) all.items) ≤ 16777216 }
    ensures { IfOk result (λ texts. flat_map string_bytes texts.items ≡ rows_text format brief 0 (flat_map (named_in world.now) all.items)) }
{
    let mut first = 0;
    let mut texts = Vec::new(alloc);
    for chosen in all {
        let principal = world.principal_text(chosen.principal);
        let rows = chosen.rows.as_slice();
        texts.push(rows_text(alloc, format, brief, first, principal, rows)?)?;
        first += rows.len() as u64;
    }
    Ok(texts)
}

/// The report on all names: of each of these principals, each below `principals()`, in their order, the rows that are asked for:
/// those with one of these decisions, or all where none is named, and always those of what is not shown. The principals are worked off
/// by 1 to 64 workers; the gate is told before each that a worker begins.
///
/// AWS IAM User Guide, "Policy evaluation logic".
pub fn every_report<R: Threads + Sync, G: Gate + Sync>(
    rt: &R,
    alloc: Global,
    asked: Asked<'_>,
    principals: &[u64],
    decisions: &[Decision],
    workers: u32,
    gate: &G,
    format: Format,
    brief: bool,
) -> Result<EveryAnswer, EveryFault>
    requires principals { All (λ p. p < length asked.world.now.principals) principals.now }
    requires there { AreThere (every_of asked) }
    requires some { 1 ≤ workers }
    requires few { workers ≤ 64 }
    ensures ok { IfOk result (λ answer. IsEveryReport format brief (every_of asked.entry) principals.now decisions.now answer.text) }
    ensures some { IfOk result (λ answer. TellsRows (every_of asked.entry) principals.now answer.some) }
    ensures unshown { IfOk result (λ answer. TellsUnshown (every_of asked.entry) principals.now answer.unshown) }
    ensures many { IfErr result (λ fault. fault ≡ TooMany → IsTooLong (every_of asked.entry) principals.now decisions.now) }
{
    let all = chosen_of_all(rt, alloc, asked, principals, decisions, workers, gate)?;
    if !are_few(all.as_slice()) {
        return Err(EveryFault::TooMany);
    }
    let some = has_some(all.as_slice());
    let unshown = has_unshown(all.as_slice());
    let rows = texts(alloc, asked.world, all, format, brief)?;
    Ok(EveryAnswer {
        text: EveryText::of(opening(format, brief), format, rows),
        some,
        unshown,
    })
}
