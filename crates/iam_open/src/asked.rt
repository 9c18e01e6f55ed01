// What is asked of requests: which ones, and which words.
ghost use Rattle.std.specs.Prelude.{◌≡◌, ◌↔◌, IsTrue, chars};
ghost use Rattle.iam_glob.specs.Glob.{Matches, MatchesFold};
ghost use Rattle.iam_layers.specs.Cell.{IsCell};
ghost use Rattle.iam_open.specs.Asked.{IsSelected, IsWanted, asked_of};
ghost use Rattle.iam_open.specs.Rows.{word_of, word_text};
ghost use Rattle.iam_row.specs.Selects.{IsMeant};

use crate::answer::Turned;
use iam_glob::Glob;
use iam_layers::{World, one_triple};
use iam_row::Position;

/// What is said of a request whatever values the keys have that nothing gives, without its example.
#[derive(Clone, Copy, Debug, PartialEq, Eq)]
pub enum Word {
    /// It is allowed in each of the contexts in question.
    Always,
    /// It is allowed in none of them.
    Never,
    /// It is allowed in one of them.
    Possible,
    /// It is not known.
    Open,
}

/// Patterns of principals, of actions and of resources, and words: a row is asked for where each of its texts matches one of the patterns,
/// and its word is one of these. An empty list says nothing, and all are meant.
#[derive(Clone, Copy)]
pub struct Asked<'a> {
    /// Patterns of what stands for principals in reports: the ARN of a user, or of a session.
    pub principals: &'a [Glob],
    /// Patterns of actions, which match without regard to case.
    pub actions: &'a [Glob],
    /// Patterns of ARNs of resources.
    pub resources: &'a [Glob],
    pub words: &'a [Word],
}

/// Whether a text is meant.
fn is_meant(patterns: &[Glob], text: &str) -> bool
    ensures { IsTrue result ↔ IsMeant (λ pattern. Matches pattern (chars text.now)) patterns.now }
{
    patterns.is_empty() || patterns.iter().any(|pattern| pattern.matches(text))
}

/// Whether a text is meant, without regard to case.
fn is_meant_fold(patterns: &[Glob], text: &str) -> bool
    ensures { IsTrue result ↔ IsMeant (λ pattern. MatchesFold pattern (chars text.now)) patterns.now }
{
    patterns.is_empty() || patterns.iter().any(|pattern| pattern.matches_fold(text))
}

/// Whether the request of the cell is selected.
pub fn is_selected(asked: Asked<'_>, world: &World, at: Position) -> bool
    requires { IsCell world.now at.cell at.principal at.action at.resource }
    ensures { IsTrue result ↔ IsSelected (asked_of asked.entry) world.now at.cell }
{
    one_triple();
    let principal = world.principal_text(at.principal);
    let action = world.action_text(at.action);
    let resource = world.resource_text(at.resource);
    if !is_meant(asked.principals, principal) {
        return false;
    }
    if !is_meant_fold(asked.actions, action) {
        return false;
    }
    is_meant(asked.resources, resource)
}

/// Whether rows with the word are asked for.
pub fn is_wanted(asked: Asked<'_>, word: Word) -> bool
    ensures { IsTrue result ↔ IsWanted (asked_of asked.entry) word }
{
    asked.words.is_empty() || asked.words.iter().any(|&said| said == word)
}

/// The word for what is said of a request.
pub fn word_of(turned: &Turned) -> Word
    ensures { result ≡ word_of turned.now }
{
    match turned {
        Turned::Always => Word::Always,
        Turned::Never => Word::Never,
        Turned::Possible(_) => Word::Possible,
        Turned::Open => Word::Open,
    }
}

/// The word as it stands in reports.
pub fn word_text(word: Word) -> &'static str
    ensures { result.now ≡ word_text word }
{
    match word {
        Word::Always => "always",
        Word::Never => "never",
        Word::Possible => "possible",
        Word::Open => "open",
    }
}
