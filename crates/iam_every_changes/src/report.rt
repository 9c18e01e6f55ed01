// The report of where the access of principals differs, made by many workers.
ghost use Rattle.std.specs.Prelude.{◌≡◌, ◌↔◌, ◌≤◌, ◌++◌, ◌∷◌, [], Bool, IfErr, IfOk, IsTrue, List, OnOk, is_none, length, map};
ghost use Rattle.std.specs.List.{list_any};
ghost use Rattle.iam_every.specs.declared.report.EveryFault.TheVariants.{TooMany};
ghost use Rattle.iam_row.specs.Changes.{ChangeRow, changes_text};
ghost use Rattle.iam_row.specs.Code.ChangeParts.{made_of};
ghost use Rattle.iam_row.specs.declared.quoted.Format.{Format};
ghost use Rattle.iam_every_changes.specs.Changes.{changed_of};
ghost use Rattle.iam_every_changes.specs.Code.Told.{has_kept, kept_in, lists_of};
ghost use Rattle.iam_every_changes.specs.Compared.{AreComparable, compared_of, who_of};
ghost use Rattle.iam_every_changes.specs.Report.{IsEveryChangesReport, IsTooLong, change_in, is_gained, is_lost, row_at, rows_in};

use crate::compared::{Compared, Who};
use crate::crew::looked_at_all;
use crate::looked::{Changed, Looked, Verdicts};
use iam_crew::Gate;
use iam_every::EveryFault;
use iam_match::OutOfMemory;
use iam_row::{Change, ChangeRows, Format, kind_of};
use std::alloc::Global;
use std::thread::Threads;

/// How many rows there may be.
const ROWS: usize = 16_777_216;

/// What is told beside a report.
#[derive(Clone, Copy, Debug, PartialEq, Eq)]
pub struct ChangesTold {
    /// Whether anything was looked at.
    pub some: bool,
    /// Whether the report has a request that is allowed newly.
    pub gained: bool,
    /// Whether it has one that is allowed no longer.
    pub lost: bool,
    /// Whether it has a line of which not all could be looked at.
    pub unshown: bool,
}

/// The report, and what is told beside it.
#[derive(Drop)]
pub struct ChangesAnswer {
    pub text: Vec<u8>,
    pub told: ChangesTold,
}

/// The change that a row tells; none where not all could be looked at.
fn change_in(verdicts: &Option<Verdicts>) -> Option<Change>
    ensures { result ≡ change_in verdicts.now }
{
    match verdicts {
        Some(verdicts) => Some(kind_of(verdicts.before.as_ref(), verdicts.after.as_ref())),
        None => None,
    }
}

/// Whether a request is allowed newly.
fn has_gained(looked: &Looked) -> bool
    ensures { result ≡ has_kept is_gained looked.now }
{
    looked.rows.iter().any(|row| matches!(change_in(&row.verdicts), Some(Change::Gained)))
}

/// Whether a request is allowed no longer.
fn has_lost(looked: &Looked) -> bool
    ensures { result ≡ has_kept is_lost looked.now }
{
    looked.rows.iter().any(|row| matches!(change_in(&row.verdicts), Some(Change::Lost)))
}

/// Whether not all of a line could be looked at.
fn has_unshown(looked: &Looked) -> bool
    ensures { result ≡ has_kept is_none looked.now }
{
    looked.rows.iter().any(|row| row.verdicts.is_none())
}

/// Whether anything was looked at.
fn any_looked_at(all: &[Looked]) -> bool
    ensures { result ≡ list_any (λ looked. looked.some) all.now }
{
    all.iter().any(|looked| looked.some)
}

/// Whether a request of one of the principals is allowed newly.
fn any_gained(all: &[Looked]) -> bool
    ensures { result ≡ list_any (has_kept is_gained) all.now }
{
    all.iter().any(|looked| has_gained(looked))
}

/// Whether one is allowed no longer.
fn any_lost(all: &[Looked]) -> bool
    ensures { result ≡ list_any (has_kept is_lost) all.now }
{
    all.iter().any(|looked| has_lost(looked))
}

/// Whether not all of a line could be looked at for one of them.
fn any_unshown(all: &[Looked]) -> bool
    ensures { result ≡ list_any (has_kept is_none) all.now }
{
    all.iter().any(|looked| has_unshown(looked))
}

/// What is told beside the report.
fn told_of(all: &[Looked]) -> ChangesTold
    ensures some { result.some ≡ list_any (λ looked. looked.some) all.now }
    ensures gained { result.gained ≡ list_any (has_kept is_gained) all.now }
    ensures lost { result.lost ≡ list_any (has_kept is_lost) all.now }
    ensures unshown { result.unshown ≡ list_any (has_kept is_none) all.now }
{
    ChangesTold {
        some: any_looked_at(all),
        gained: any_gained(all),
        lost: any_lost(all),
        unshown: any_unshown(all),
    }
}

/// Whether there are no more rows than there may be.
fn are_few(all: &[Looked]) -> bool
    ensures { IsTrue result ↔ (length (kept_in all.now) ≤ 16777216) }
{
    let mut count = 0;
    for looked in all {
        count += looked.rows.len();
        if count > ROWS {
            return false;
        }
    }
    true
}

/// Puts the row of a principal behind the others.
fn add_row(
    alloc: Global,
    report: &mut ChangeRows,
    principal: &str,
    row: &Changed,
) -> Result<(), OutOfMemory>
    ensures { OnOk result ((format : Format) (brief : Bool) (rows : List ChangeRow) → report.old ≡ made_of format brief rows
        → report.new ≡ made_of format brief (rows ++ row_at principal.now (changed_of row.now) ∷ [])) }
{
    let none = None;
    let (before, after) = match &row.verdicts {
        Some(verdicts) => (&verdicts.before, &verdicts.after),
        None => (&none, &none),
    };
    let (action, resource) = (row.action.as_str(), row.resource.as_str());
    let change = change_in(&row.verdicts);
    report.add(alloc, principal, action, resource, change, before, after)
}

/// Puts the rows of a principal behind the others.
fn add_rows(
    alloc: Global,
    report: &mut ChangeRows,
    principal: &str,
    rows: &[Changed],
) -> Result<(), OutOfMemory>
    ensures { OnOk result ((format : Format) (brief : Bool) (before : List ChangeRow) → report.old ≡ made_of format brief before
        → report.new ≡ made_of format brief (before ++ map (row_at principal.now) (map changed_of rows.now))) }
{
    for row in rows {
        add_row(alloc, report, principal, row)?;
    }
    Ok(())
}

/// The text of the rows of all principals.
fn text_of(
    alloc: Global,
    whos: &[Who<'_>],
    all: &[Looked],
    format: Format,
    brief: bool,
) -> Result<Vec<u8>, OutOfMemory>
    requires { length all.now ≡ length whos.now }
    ensures { IfOk result (λ text. text.items ≡ changes_text format brief (rows_in (lists_of (map who_of whos.now) all.now))) }
{
    let mut report = ChangeRows::new(alloc, format, brief)?;
    for i in 0..whos.len() {
        add_rows(alloc, &mut report, whos[i].text, all[i].rows.as_slice())?;
    }
    report.finish()
}

/// The report of where the access of these principals differs, for all names, principal by principal in their order: each request that
/// is looked at and that one of the worlds alone allows, and each line, or all, of which there are too many kinds to look at. The
/// principals are worked off by 1 to 64 workers; the gate is told before each that a worker begins. `TooMany` where there would be over
/// 16,777,216 rows.
///
/// AWS IAM User Guide, "Policy evaluation logic".
pub fn every_changes_report<R: Threads + Sync, G: Gate + Sync>(
    rt: &R,
    alloc: Global,
    compared: Compared<'_>,
    whos: &[Who<'_>],
    workers: u32,
    gate: &G,
    format: Format,
    brief: bool,
) -> Result<ChangesAnswer, EveryFault>
    requires comparable { AreComparable (compared_of compared) (map who_of whos.now) }
    requires some { 1 ≤ workers }
    requires few { workers ≤ 64 }
    ensures ok { IfOk result (λ answer. IsEveryChangesReport format brief (compared_of compared.entry) (map who_of whos.now) answer.text.items answer.told) }
    ensures many { IfErr result (λ fault. fault ≡ TooMany → IsTooLong (compared_of compared.entry) (map who_of whos.now)) }
{
    let all = looked_at_all(rt, alloc, compared, whos, workers, gate)?;
    if !are_few(all.as_slice()) {
        return Err(EveryFault::TooMany);
    }
    let told = told_of(all.as_slice());
    let text = text_of(alloc, whos, all.as_slice(), format, brief)?;
    Ok(ChangesAnswer { text, told })
}
