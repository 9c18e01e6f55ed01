// A text that may have variables: a pattern where it has none, else a draft.
use crate::OutOfMemory;
use crate::draft::{Draft, is_plain};
use crate::version::Version;
use iam_glob::Glob;
use std::alloc::Global;
use std::marker::Model;

/// A pattern text that may hold variables.
///
/// One without variables is kept as its pattern, so that nothing has to be resolved for it.
#[derive(Debug, Drop)]
pub struct Template {
    kind: Kind,
}

#[derive(Debug, Drop)]
enum Kind {
    Fixed(Glob),
    Open(Draft),
}

/// How a template is kept.
#[derive(Clone, Copy)]
pub enum TemplateForm<'a> {
    /// A pattern, each of whose signs is a piece.
    Fixed(&'a Glob),
    /// The text itself, walked each time that it is resolved.
    Open(&'a Draft),
}

impl Model for Template {
    ghost use Rattle.std.specs.Prelude.{List};
    ghost use Rattle.iam_text.specs.declared.draft.Piece.{Piece};
    ghost use Rattle.iam_text.specs.Code.Templates.{pieces_in};

    ghost Value = { List Piece };

    ghost view = { λ template. pieces_in template.kind };
}

impl Template {
    ghost use Rattle.std.specs.Prelude.{◌≡◌, IfOk, IsTrue};
    ghost use Rattle.iam_text.specs.Draft.{IsDraftIn};
    ghost use Rattle.iam_text.specs.Template.{IsFormOf};
    ghost use Rattle.iam_text.specs.Variables.{is_draft_in};

    /// The one draft of a text that has one in a document of the version, in which `*` and `?` are wildcards where `wild`
    /// says so.
    pub fn of(
        alloc: Global,
        text: &str,
        wild: bool,
        version: Version,
    ) -> Result<Template, OutOfMemory>
        requires { IsTrue (is_draft_in version text.now) }
        ensures { IfOk result (IsDraftIn version wild text.now) }
    {
        if is_plain(text, version) {
            let glob = Glob::of_text(alloc, text, wild)?;
            return Ok(Template {
                kind: Kind::Fixed(glob),
            });
        }
        let draft = Draft::of(alloc, text, wild)?;
        Ok(Template {
            kind: Kind::Open(draft),
        })
    }

    /// How it is kept: as the pattern of a text in which no variable stands, or as its draft.
    pub fn form(&self) -> TemplateForm<'_>
        ensures { IsFormOf result self.now }
    {
        match &self.kind {
            Kind::Fixed(glob) => TemplateForm::Fixed(glob),
            Kind::Open(draft) => TemplateForm::Open(draft),
        }
    }

    /// `true` only where both have the same pieces; `false` says nothing, since like texts may be kept unlike.
    pub fn is_same(&self, other: &Template) -> bool
        ensures { IsTrue result → self.now ≡ other.now }
    {
        match (&self.kind, &other.kind) {
            (Kind::Fixed(one), Kind::Fixed(other)) => one.is_same(other),
            (Kind::Open(one), Kind::Open(other)) => one.is_same(other),
            _ => false,
        }
    }

    /// A number that tells most lists of templates apart, where the last of them is this one and those before it have this
    /// number. Nothing is claimed of it.
    pub fn print(&self, print: u64) -> u64 {
        match &self.kind {
            Kind::Fixed(glob) => glob.print(print),
            Kind::Open(draft) => draft.print(print),
        }
    }
}
