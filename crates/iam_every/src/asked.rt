// What is asked of all names.

use iam_glob::Glob;
use iam_layers::{Unnamed, World};

/// What is said of texts that a world does not name: of those that this pattern matches, and no pattern of a line before.
#[derive(Clone, Copy)]
pub struct Line<'a> {
    pub pattern: &'a Glob,
    /// The pattern as it is written.
    pub text: &'a str,
    pub unnamed: Unnamed<'a>,
}

/// Which actions are in question.
#[derive(Clone, Copy)]
pub enum Which<'a> {
    /// Those of the world.
    OfWorld,
    /// All that can be, and that this pattern matches without regard to case; it is written so.
    Matching(&'a Glob, &'a str),
}

/// A world, what is said of texts that it does not name, and which actions are in question.
#[derive(Clone, Copy)]
pub struct Asked<'a> {
    pub world: &'a World,
    pub lines: &'a [Line<'a>],
    pub actions: Which<'a>,
}
