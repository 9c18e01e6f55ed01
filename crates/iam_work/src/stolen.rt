// What a theft gives, in a file of its own with no clause, since definitions of `specs/` name it.

use crate::run::Run;

/// What a theft gave.
#[derive(Clone, Copy, Debug, PartialEq, Eq)]
pub enum Stolen {
    /// The run at the front.
    Took(Run),
    /// Nothing: the deque held no run.
    Empty,
    /// Nothing, but it may be tried again: a run left the deque meanwhile, or it held none.
    Lost,
}
