// What a seat knows, in a file of its own with no clause, since the rules and the seats name it.

use crate::run::Run;
use std::collections::LinkedList;

// What one or more seats know of the marks. It is for proofs alone, and no value of it is made.
pub struct MarkView {
    /// How many grains there are.
    pub grains: u64,
    /// How many seats were opened.
    pub all: u64,
    /// How many seats stand in the view: 1, and others while the seats are dealt out or taken back.
    pub seats: u64,
    /// The grains that a seat of the view marked before any other.
    pub marked: LinkedList<u64>,
    /// The grains that a seat of the view found marked.
    pub found: LinkedList<u64>,
}

// What a pass knows of its deque. It is for proofs alone, and no value of it is made.
pub struct DequeView {
    /// How many grains there are.
    pub grains: u64,
    /// Whether no other pass knows the deque: its owner alone, at first.
    pub alone: bool,
    /// What the deque holds, front first, as long as the pass is alone.
    pub held: LinkedList<Run>,
    /// The runs that the pass pushed.
    pub pushed: LinkedList<Run>,
    /// The runs that the pass took.
    pub taken: LinkedList<Run>,
}
