// A draft as it is walked.
ghost use Rattle.std.specs.Prelude.{◌≡◌, ◌++◌, ◌∷◌, MatchOption, map};
ghost use Rattle.std.specs.Str.{chars};
ghost use Rattle.iam_text.specs.Code.Kept.{OneDraft, OneDraft-prop};
ghost use Rattle.iam_glob.specs.Glob.{sign_of};
ghost use Rattle.iam_text.specs.Draft.{plain_draft};

use crate::form::{Form, cut_form, form_behind};
use crate::version::Version;
use std::marker::Model;

/// What is left of a draft: stretches of plain text, and the forms between them.
#[derive(Drop)]
pub struct Stretches<'a> {
    pub(crate) text: &'a str,
    pub(crate) wild: bool,
    pub(crate) version: Version,
    ghost pieces: { OneDraft version wild text.now } by { OneDraft-prop version wild text.now },
}

impl<'a> Model for Stretches<'a> {
    ghost use Rattle.iam_text.specs.Stretches.{StretchesValue};

    ghost Value = { StretchesValue };

    ghost view = { λ left. record { text = left.text.now; wild = left.wild; pieces = left.pieces.0 } };
}

impl<'a> Stretches<'a> {
    ghost use Rattle.iam_text.specs.Stretches.{piece_of};

    /// The text that is left.
    pub fn text(&self) -> &'a str
        ensures { result.now ≡ self.now.text }
    {
        self.text
    }

    /// Whether `*` and `?` are wildcards in plain text.
    pub fn is_wild(&self) -> bool
        ensures { result ≡ self.now.wild }
    {
        self.wild
    }

    /// The plain text before the first form, that form, and what is left behind it; `None` where all that is left is plain.
    pub fn first_form(&self) -> Option<(&'a str, Form<'a>, Stretches<'a>)>
        ensures { MatchOption result (self.now.pieces ≡ plain_draft (map (sign_of self.now.wild) (chars self.now.text)))
            (λ p. (self.now.pieces ≡ plain_draft (map (sign_of self.now.wild) (chars p.0.now)) ++ (piece_of p.1 ∷ p.2.pieces)) × (p.2.wild ≡ self.now.wild)) }
    {
        match self.version {
            Version::V2012 => {
                let (front, inside) = cut_form(self.text)?;
                let (form, behind) = form_behind(inside)?;
                Some((
                    front,
                    form,
                    Stretches {
                        text: behind,
                        wild: self.wild,
                        version: self.version,
                    },
                ))
            }
            Version::V2008 => None,
        }
    }
}
