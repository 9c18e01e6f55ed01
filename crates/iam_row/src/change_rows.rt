// The report of what has changed, made row by row.
ghost use Rattle.std.specs.Prelude.{◌≡◌, ◌++◌, ◌∷◌, [], Bool, IfOk, List, OnOk, string_bytes};
ghost use Rattle.iam_row.specs.Changes.{ChangeRow, changes_text};
ghost use Rattle.iam_row.specs.Code.ChangeParts.{change_row, comma_if, made_of, text_behind};
ghost use Rattle.iam_row.specs.declared.quoted.Format.{Format};

use crate::changes::{Change, change_action, change_tail, changes_opening};
use crate::piece::closing;
use crate::quoted::{Format, principal_piece, resource_piece};
use crate::tail::Tail;
use iam_layers::Verdict;
use iam_text::OutOfMemory;
use std::alloc::Global;
use std::marker::Model;

/// The report of what has changed, as it is made row by row. A contract sees the text so far.
#[derive(Debug, Drop)]
pub struct ChangeRows {
    format: Format,
    brief: bool,
    // Whether there is a row.
    some: bool,
    text: String,
}

impl Model for ChangeRows {
    ghost use Rattle.std.specs.Prelude.{string_bytes};
    ghost use Rattle.iam_row.specs.Code.ChangeParts.{ChangeRowsValue};

    ghost Value = { ChangeRowsValue };

    ghost view = { λ rows. record { format = rows.format; brief = rows.brief; some = rows.some; text = string_bytes rows.text } };
}

/// The comma before an object, where a row stands before it.
fn comma_if(some: bool) -> &'static str
    ensures { result.now ≡ comma_if some }
{
    if some { "," } else { "" }
}

/// A row of these pieces; where it is an object, this comma stands before it.
fn joined(
    alloc: Global,
    format: Format,
    comma: &str,
    principal: &str,
    action: &str,
    resource: &str,
    tail: &Tail,
) -> Result<String, OutOfMemory>
    ensures { IfOk result (λ text. string_bytes text ≡ text_behind format comma.now
        (record { principal = principal.now; action = action.now; resource = resource.now }) tail.now) }
{
    let front = tail.front.as_str();
    let back = tail.back.as_str();
    match format {
        Format::Csv => format!(in alloc; "{front}{principal}{action}{resource}{back}"),
        Format::Json => format!(in alloc; "{comma}{action}{front}{principal}{resource}{back}"),
    }
}

/// The text of a row, where one stands before it or none does.
fn row_text(
    alloc: Global,
    format: Format,
    brief: bool,
    some: bool,
    principal: &str,
    action: &str,
    resource: &str,
    change: Option<Change>,
    before: &Option<Verdict>,
    after: &Option<Verdict>,
) -> Result<String, OutOfMemory>
    ensures { IfOk result (λ text. string_bytes text ≡ change_row format brief (comma_if some)
        (record {
          texts = record { principal = principal.now; action = action.now; resource = resource.now };
          change = change;
          before = before.now;
          after = after.now;
        })) }
{
    let principal = principal_piece(alloc, format, principal)?;
    let action = change_action(alloc, format, action)?;
    let resource = resource_piece(alloc, format, resource)?;
    let tail = change_tail(alloc, format, brief, change, before, after)?;
    joined(
        alloc,
        format,
        comma_if(some),
        principal.as_str(),
        action.as_str(),
        resource.as_str(),
        &tail,
    )
}

impl ChangeRows {
    /// No rows yet, in this format, in full or in brief. `OutOfMemory` comes where their text finds no memory.
    pub fn new(alloc: Global, format: Format, brief: bool) -> Result<ChangeRows, OutOfMemory>
        ensures { IfOk result (λ rows. rows ≡ made_of format brief []) }
    {
        Ok(ChangeRows {
            format,
            brief,
            some: false,
            text: String::from_str(alloc, changes_opening(format, brief))?,
        })
    }

    /// Puts a row behind the others: what has become of the request of these texts, with what is said before and after, or of
    /// which line not all is shown. `OutOfMemory` comes where it finds no memory; nothing is said of the rows then.
    pub fn add(
        &mut self,
        alloc: Global,
        principal: &str,
        action: &str,
        resource: &str,
        change: Option<Change>,
        before: &Option<Verdict>,
        after: &Option<Verdict>,
    ) -> Result<(), OutOfMemory>
        ensures { OnOk result ((format : Format) (brief : Bool) (rows : List ChangeRow) → self.old ≡ made_of format brief rows
            → self.new ≡ made_of format brief (rows ++ record {
              texts = record { principal = principal.now; action = action.now; resource = resource.now };
              change = change;
              before = before.now;
              after = after.now;
            } ∷ [])) }
    {
        let row = row_text(
            alloc,
            self.format,
            self.brief,
            self.some,
            principal,
            action,
            resource,
            change,
            before,
            after,
        )?;
        self.text.push_str(row.as_str())?;
        self.some = true;
        Ok(())
    }

    /// The whole report. `OutOfMemory` comes where its end finds no memory.
    pub fn finish(self) -> Result<Vec<u8>, OutOfMemory>
        ensures { IfOk result (λ text. (format : Format) (brief : Bool) (rows : List ChangeRow) → self ≡ made_of format brief rows
            → text.items ≡ changes_text format brief rows) }
    {
        let ChangeRows {
            format,
            brief: _,
            some: _,
            mut text,
        } = self;
        text.push_str(closing(format))?;
        Ok(text.into_bytes())
    }
}
