// The report on all names, whatever values the keys have that nothing gives, made by many workers.
ghost use Rattle.std.specs.Prelude.{◌≡◌, ◌↔◌, ◌<◌, ◌≤◌, All, IfErr, IfOk, IsTrue, length, string_bytes};
ghost use Rattle.std.specs.List.{flat_map, list_any};
ghost use Rattle.iam_every.specs.Every.{AreThere, every_of};
ghost use Rattle.iam_every.specs.declared.report.EveryFault.TheVariants.{TooMany};
ghost use Rattle.iam_open_every.specs.Code.Texts.{all_rows, rows_in};
ghost use Rattle.iam_open_every.specs.Report.{IsOpenEveryReport, IsTooLong, TellsRows, TellsUnshown, rows_text};

use crate::crew::{Chosen, chosen_of_all};
use crate::row_text::rows_text;
use iam_crew::Gate;
use iam_every::{Asked, EveryAnswer, EveryFault, EveryText};
use iam_layers::World;
use iam_match::OutOfMemory;
use iam_open::{Word, opening};
use iam_row::Format;
use std::alloc::Global;
use std::thread::Threads;

/// How many rows there may be.
const ROWS: usize = 16_777_216;

/// Whether there are no more rows than there may be.
fn are_few(all: &[Chosen]) -> bool
    ensures { IsTrue result ↔ (length (rows_in all.now) ≤ 16777216) }
{
    let mut count = 0;
    for chosen in all {
        count += chosen.rows.as_slice().len();
        if count > ROWS {
            return false;
        }
    }
    true
}

/// Whether one of the principals has rows.
fn has_some(all: &[Chosen]) -> bool
    ensures { result ≡ list_any (λ chosen. chosen.some) all.now }
{
    all.iter().any(|chosen| chosen.some)
}

/// Whether one of them has rows that are not shown.
fn has_unshown(all: &[Chosen]) -> bool
    ensures { result ≡ list_any (λ chosen. chosen.unshown) all.now }
{
    all.iter().any(|chosen| chosen.unshown)
}

/// The texts of the rows of each principal, numbered from the first on. The rows are let go as their texts are made.
fn texts(
    alloc: Global,
    world: &World,
    all: Vec<Chosen>,
    format: Format,
    brief: bool,
) -> Result<Vec<String>, OutOfMemory>
    requires known { All (λ chosen. chosen.principal < length world.now.principals) all.items }
    requires few { length (rows_in all.items) ≤ 16777216 }
    ensures { IfOk result (λ texts. flat_map string_bytes texts.items ≡ rows_text format brief 0 (all_rows world.now all.items)) }
{
    let mut first = 0;
    let mut texts = Vec::new(alloc);
    for chosen in all {
        let principal = world.principal_text(chosen.principal);
        let rows = chosen.rows.as_slice();
        texts.push(rows_text(alloc, format, brief, first, principal, rows)?)?;
        first += rows.len() as u64;
    }
    Ok(texts)
}

/// The report on all names, whatever values the keys have that nothing gives: of each of these principals, each below `principals()`, in
/// their order, the rows that are asked for: those with one of these words, or all where none is named, and always those of what is not
/// shown. The principals are worked off by 1 to 64 workers; the gate is told before each that a worker begins.
///
/// AWS IAM User Guide, "AWS global condition context keys" and "Policy evaluation logic".
pub fn open_every_report<R: Threads + Sync, G: Gate + Sync>(
    rt: &R,
    alloc: Global,
    asked: Asked<'_>,
    principals: &[u64],
    words: &[Word],
    workers: u32,
    gate: &G,
    format: Format,
    brief: bool,
) -> Result<EveryAnswer, EveryFault>
    requires principals { All (λ p. p < length asked.world.now.principals) principals.now }
    requires there { AreThere (every_of asked) }
    requires some { 1 ≤ workers }
    requires few { workers ≤ 64 }
    ensures ok { IfOk result (λ answer. IsOpenEveryReport format brief (every_of asked.entry) principals.now words.now answer.text) }
    ensures some { IfOk result (λ answer. TellsRows brief (every_of asked.entry) principals.now answer.some) }
    ensures unshown { IfOk result (λ answer. TellsUnshown brief (every_of asked.entry) principals.now answer.unshown) }
    ensures many { IfErr result (λ fault. fault ≡ TooMany → IsTooLong brief (every_of asked.entry) principals.now words.now) }
{
    let all = chosen_of_all(rt, alloc, asked, principals, words, brief, workers, gate)?;
    if !are_few(all.as_slice()) {
        return Err(EveryFault::TooMany);
    }
    let some = has_some(all.as_slice());
    let unshown = has_unshown(all.as_slice());
    let rows = texts(alloc, asked.world, all, format, brief)?;
    Ok(EveryAnswer {
        text: EveryText::of(opening(format, brief), format, rows),
        some,
        unshown,
    })
}
