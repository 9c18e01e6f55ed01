// A text with variables, as it is kept.
ghost use Rattle.std.specs.Prelude.{◌≡◌, ◌↔◌, ◌==◌, List, Bool, false, IsTrue, map};
ghost use Rattle.std.specs.List.{list_any};
ghost use Rattle.std.specs.Str.{chars};
ghost use Rattle.iam_text.specs.declared.draft.Piece.{Piece};
ghost use Rattle.iam_text.specs.Code.Kept.{OneDraft, OneDraft-prop};
ghost use Rattle.iam_glob.specs.Glob.{sign_of};
ghost use Rattle.iam_text.specs.Draft.{IsDraftIn, plain_draft};
ghost use Rattle.iam_text.specs.Variables.{is_draft, is_draft_from, is_draft_in, opened};

use crate::OutOfMemory;
use crate::form::{cut_form, form_behind};
use crate::items::Items;
use crate::pieces::pieces_of;
use crate::stretches::Stretches;
use crate::text::Text;
use crate::version::Version;
use iam_glob::Sign;
use std::alloc::Global;
use std::hash::{FoldHasher, Hasher};
use std::marker::Model;

/// A piece of a text that may hold variables. Contracts see a text as its pieces; a [`Draft`] keeps the text.
#[derive(Debug, Drop)]
pub enum Piece {
    /// A character of the text, read as a sign of a pattern.
    Plain(Sign),
    /// The character that `${*}`, `${?}` or `${$}` stands for.
    Escaped(char),
    /// A variable by its key and its default.
    Variable(Text, Option<Text>),
}

/// A text that may hold variables and is on their grammar; contracts see it as its pieces.
///
/// AWS IAM User Guide, "IAM policy elements: Variables and tags".
#[derive(Debug, Drop)]
pub struct Draft {
    text: Text,
    wild: bool,
    version: Version,
    ghost pieces: { OneDraft version wild text } by { OneDraft-prop version wild text },
}

impl Model for Draft {
    ghost use Rattle.std.specs.Prelude.{List};
    ghost use Rattle.iam_text.specs.declared.draft.Piece.{Piece};

    ghost Value = { List Piece };

    ghost view = { λ draft. draft.pieces.0 };
}

impl Draft {
    ghost use Rattle.std.specs.Prelude.{◌≡◌, IfOk, IsTrue, List, MatchOption, map};
    ghost use Rattle.std.specs.Str.{chars};
    ghost use Rattle.iam_text.specs.declared.draft.Piece.{Piece};
    ghost use Rattle.iam_glob.specs.Glob.{sign_of};
    ghost use Rattle.iam_text.specs.Draft.{IsDraft, plain_draft};
    ghost use Rattle.iam_text.specs.Variables.{is_draft};

    /// The one draft of a text of version 2012-10-17, in which `*` and `?` are wildcards where `wild` says so; `None`
    /// where some `${` begins none of `${*}`, `${?}`, `${$}`, `${key}` and `${key, 'default'}`.
    pub fn read(alloc: Global, text: &str, wild: bool) -> Result<Option<Draft>, OutOfMemory>
        ensures { IfOk result (λ found. MatchOption found ((pieces : List Piece) → ¬ IsDraft wild text.now pieces) (IsDraft wild text.now)) }
    {
        if has_draft(text, Version::V2012) {
            Ok(Some(Draft::of(alloc, text, wild)?))
        } else {
            Ok(None)
        }
    }

    /// The one draft of a text of version 2012-10-17 that is on the grammar of variables; `*` and `?` are wildcards there
    /// where `wild` says so.
    pub fn of(alloc: Global, text: &str, wild: bool) -> Result<Draft, OutOfMemory>
        requires { IsTrue (is_draft text.now) }
        ensures { IfOk result (IsDraft wild text.now) }
    {
        Ok(Draft {
            text: Text::read(alloc, text)?,
            wild,
            version: Version::V2012,
        })
    }

    /// The draft of a text of version 2008-10-17: its characters one by one, where `${` begins no variable.
    pub fn literal(alloc: Global, text: &str, wild: bool) -> Result<Draft, OutOfMemory>
        ensures { IfOk result (λ draft. draft ≡ plain_draft (map (sign_of wild) (chars text.now))) }
    {
        Ok(Draft {
            text: Text::read(alloc, text)?,
            wild,
            version: Version::V2008,
        })
    }

    /// The pieces, in order. They are made anew at each call, since a draft keeps its text alone: pieces take many times
    /// the memory of their text.
    pub fn pieces(&self, alloc: Global) -> Result<Items<Piece>, OutOfMemory>
        ensures { IfOk result (λ pieces. pieces ≡ self.now) }
    {
        let pieces = pieces_of(alloc, self.stretches())?;
        Ok(Items::from_vec(pieces))
    }

    /// `true` only where both have the same pieces; `false` says nothing, since unlike texts may have the same pieces.
    pub fn is_same(&self, other: &Draft) -> bool
        ensures { IsTrue result → self.now ≡ other.now }
    {
        if self.text.as_str() != other.text.as_str() || self.wild != other.wild {
            return false;
        }
        self.version == other.version
    }

    /// A number that tells most drafts apart, with this one before it. Nothing is claimed of it.
    pub fn print(&self, print: u64) -> u64 {
        let mut hasher = FoldHasher::default();
        hasher.write_u64(print);
        hasher.write(self.text.as_str().as_bytes());
        hasher.finish()
    }

    /// The text, to be walked from its front.
    pub fn stretches(&self) -> Stretches<'_>
        ensures { result.pieces ≡ self.now }
    {
        Stretches {
            text: self.text.as_str(),
            wild: self.wild,
            version: self.version,
        }
    }
}

/// Whether the text has a draft in a document of the version: in version 2012-10-17 each `${` begins one of `${*}`,
/// `${?}`, `${$}`, `${key}` and `${key, 'default'}`.
pub fn has_draft(text: &str, version: Version) -> bool
    ensures value { result ≡ is_draft_in version text.now }
    ensures drafts { (wild : Bool) → IsTrue result ↔ ((pieces : List Piece) × IsDraftIn version wild text.now pieces) }
{
    match version {
        Version::V2012 => !has_dollar(text.as_bytes()) || has_forms(text),
        Version::V2008 => true,
    }
}

/// Whether no variable begins in the text: it has a draft, whose pieces are its characters.
pub fn is_plain(text: &str, version: Version) -> bool
    ensures plain { IsTrue result → (wild : Bool) → IsDraftIn version wild text.now (plain_draft (map (sign_of wild) (chars text.now))) }
    ensures other { result ≡ false → version ≡ Version.V2012 }
{
    match version {
        Version::V2012 => !has_dollar(text.as_bytes()) || cut_form(text).is_none(),
        Version::V2008 => true,
    }
}

/// Whether the text has a `$`, without which no variable begins.
pub fn has_dollar(text: &[u8]) -> bool
    ensures { result ≡ list_any (λ c. c == 36) text.now }
{
    text.contains(&b'$')
}

/// Whether each `${` of the text begins a form.
fn has_forms(text: &str) -> bool
    ensures { result ≡ is_draft text.now }
{
    match cut_form(text) {
        Some((_, inside)) => has_forms_behind(inside),
        None => true,
    }
}

/// Whether the `${` that stands before the text begins a form, and each `${` behind that one too.
pub fn has_forms_behind(text: &str) -> bool
    ensures { result ≡ is_draft_from opened text.now }
{
    let mut inside = text;
    while let Some((_, behind)) = form_behind(inside) {
        match cut_form(behind) {
            Some((_, next)) => inside = next,
            None => return true,
        }
    }
    false
}
