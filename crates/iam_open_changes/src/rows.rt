// The rows of a request, put behind those of others.
ghost use Rattle.std.specs.Prelude.{◌≡◌, ◌++◌, ◌||◌, ◌∷◌, [], IfOk, List, None, OnOk, Some, option_map, string_bytes};
ghost use Rattle.iam_open_changes.specs.Code.Adds.{Adds, joined_kinds, no_kinds};
ghost use Rattle.iam_open_changes.specs.Code.Texts.{texts_of};
ghost use Rattle.iam_open_changes.specs.InBoth.{IsThere};
ghost use Rattle.iam_open_changes.specs.Report.{AreOpenRows, AreRows, IsAt, IsGivenVerdict, is_untold, shown_rows};
ghost use Rattle.iam_open_changes.specs.Rows.{RowValue, between_text, is_gained, is_lost, is_open, quoted_texts};
ghost use Rattle.iam_row.specs.Report.{CellTexts};

use crate::change::{Change, Told, change_of};
use crate::example::Example;
use crate::numbers::{Both, Numbers};
use crate::row::{Texts, Word, row};
use iam_layers::{OutOfMemory, Verdict, World};
use iam_row::{Format, quote};
use std::alloc::Global;

/// Which kinds of rows a report has.
#[derive(Clone, Copy, Debug, PartialEq, Eq)]
pub struct Kinds {
    /// One of a request that is gained in a context that is shown.
    pub gained: bool,
    /// One of a request that is lost in a context that is shown.
    pub lost: bool,
    /// One of a request of which something is not known.
    pub unknown: bool,
}

impl Kinds {
    /// None.
    pub fn none() -> Kinds
        ensures { result ≡ no_kinds }
    {
        Kinds {
            gained: false,
            lost: false,
            unknown: false,
        }
    }

    /// Those of rows that tell this.
    fn of(word: Word) -> Kinds
        ensures { result ≡ record { gained = is_gained word; lost = is_lost word; unknown = is_open word } }
    {
        match word {
            Word::Gained => Kinds {
                gained: true,
                ..Kinds::none()
            },
            Word::Lost => Kinds {
                lost: true,
                ..Kinds::none()
            },
            Word::Open => Kinds {
                unknown: true,
                ..Kinds::none()
            },
        }
    }

    /// These and others.
    pub fn joined(self, other: Kinds) -> Kinds
        ensures { result ≡ joined_kinds self other }
    {
        Kinds {
            gained: self.gained || other.gained,
            lost: self.lost || other.lost,
            unknown: self.unknown || other.unknown,
        }
    }
}

/// Rows, each with what stands before it where it is not the first, and their kinds.
#[derive(Debug, Drop)]
pub struct Part {
    pub text: String,
    pub kinds: Kinds,
}

/// What stands before a row that is not the first.
fn between(format: Format) -> &'static str
    ensures { result.now ≡ between_text format }
{
    match format {
        Format::Csv => "",
        Format::Json => ",",
    }
}

impl Part {
    /// No rows.
    pub fn new(alloc: Global) -> Part
        ensures text { string_bytes result.text ≡ [] }
        ensures kinds { result.kinds ≡ no_kinds }
    {
        Part {
            text: String::new(alloc),
            kinds: Kinds::none(),
        }
    }

    /// Puts a row behind the others, of texts as they stand in it.
    fn add(
        &mut self,
        alloc: Global,
        format: Format,
        brief: bool,
        quoted: Texts<'_>,
        word: Word,
        before: &Option<Verdict>,
        after: &Option<Verdict>,
        example: Option<&Example>,
    ) -> Result<(), OutOfMemory>
        ensures { OnOk result ((texts : CellTexts) → texts_of quoted.entry ≡ quoted_texts format texts
            → Adds format brief self.old (record {
              texts = texts;
              word = word;
              before = before.now;
              after = after.now;
              example = option_map (λ it. record { own = it.now.own.items; moment = it.now.moment }) example.entry;
            } ∷ []) self.new) }
    {
        let more = row(alloc, format, brief, quoted, word, before, after, example)?;
        self.text.push_str(between(format))?;
        self.text.push_str(more.as_str())?;
        self.kinds = self.kinds.joined(Kinds::of(word));
        Ok(())
    }

    /// Puts the row of an example behind the others, if there is one.
    fn add_told(
        &mut self,
        alloc: Global,
        format: Format,
        brief: bool,
        quoted: Texts<'_>,
        word: Word,
        told: &Told,
    ) -> Result<(), OutOfMemory>
        ensures { OnOk result ((texts : CellTexts) → texts_of quoted.entry ≡ quoted_texts format texts
            → Adds format brief self.old (shown_rows texts word told.now) self.new) }
    {
        match told {
            Told::Shown(it) => {
                self.add(
                    alloc,
                    format,
                    brief,
                    quoted,
                    word,
                    &it.before,
                    &it.after,
                    Some(it),
                )
            }
            _ => Ok(()),
        }
    }

    /// Puts the rows of a request of these texts behind the others: one of an example of a gain, one of an example of a loss, and one where
    /// something of it is open.
    pub fn add_request(
        &mut self,
        alloc: Global,
        format: Format,
        brief: bool,
        both: Both<'_>,
        texts: Texts<'_>,
    ) -> Result<(), OutOfMemory>
        requires before { IsAt both.before.now (texts_of texts) both.was }
        requires after { IsAt both.after.now (texts_of texts) both.now }
        ensures { OnOk result ((rows : List RowValue) × AreRows both.entry.before.now both.entry.after.now (texts_of texts.entry) rows
            × Adds format brief self.old rows self.new) }
    {
        let principal = quote(alloc, format, texts.principal)?;
        let action = quote(alloc, format, texts.action)?;
        let resource = quote(alloc, format, texts.resource)?;
        let quoted = Texts {
            principal: principal.as_str(),
            action: action.as_str(),
            resource: resource.as_str(),
        };
        self.add_quoted(alloc, format, brief, both, texts, quoted)
    }

    /// The same, of texts that stand so in a row.
    fn add_quoted(
        &mut self,
        alloc: Global,
        format: Format,
        brief: bool,
        both: Both<'_>,
        texts: Texts<'_>,
        quoted: Texts<'_>,
    ) -> Result<(), OutOfMemory>
        requires before { IsAt both.before.now (texts_of texts) both.was }
        requires after { IsAt both.after.now (texts_of texts) both.now }
        requires quoted { texts_of quoted ≡ quoted_texts format (texts_of texts) }
        ensures { OnOk result ((rows : List RowValue) × AreRows both.entry.before.now both.entry.after.now (texts_of texts.entry) rows
            × Adds format brief self.old rows self.new) }
    {
        let _texts = texts;
        let change = change_of(alloc, both)?;
        let unknown = has_untold(&change);
        self.add_told(alloc, format, brief, quoted, Word::Gained, &change.gained)?;
        self.add_told(alloc, format, brief, quoted, Word::Lost, &change.lost)?;
        self.add_open(alloc, format, brief, both, quoted, unknown)
    }

    /// Puts the row of what is not known behind the others, if something is.
    fn add_open(
        &mut self,
        alloc: Global,
        format: Format,
        brief: bool,
        both: Both<'_>,
        quoted: Texts<'_>,
        unknown: bool,
    ) -> Result<(), OutOfMemory>
        ensures { OnOk result ((texts : CellTexts) → texts_of quoted.entry ≡ quoted_texts format texts
            → (rows : List RowValue) × AreOpenRows both.entry.before.now both.entry.after.now both.entry.was both.entry.now texts unknown rows
            × Adds format brief self.old rows self.new) }
    {
        if !unknown {
            return Ok(());
        }
        let said = given_verdict(alloc, both.before, both.was)?;
        let says = given_verdict(alloc, both.after, both.now)?;
        self.add(alloc, format, brief, quoted, Word::Open, &said, &says, None)
    }
}

/// Whether of gains or of losses nothing is known.
fn has_untold(change: &Change) -> bool
    ensures { result ≡ (is_untold change.now.gained || is_untold change.now.lost) }
{
    is_untold(&change.gained) || is_untold(&change.lost)
}

/// Whether it is open.
fn is_untold(told: &Told) -> bool
    ensures { result ≡ is_untold told.now }
{
    match told {
        Told::Open => true,
        _ => false,
    }
}

/// The verdict on the request as the world has it; none where it does not have it.
fn given_verdict(
    alloc: Global,
    world: &World,
    at: Option<Numbers>,
) -> Result<Option<Verdict>, OutOfMemory>
    requires { IsThere world.now at }
    ensures { IfOk result (IsGivenVerdict world.now at) }
{
    match at {
        Some(it) => {
            let verdict = world.decide_plain(alloc, it.principal, it.action, it.resource)?;
            Ok(Some(verdict))
        }
        None => Ok(None),
    }
}
