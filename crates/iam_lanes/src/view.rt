// What a seat knows, in a file of its own with no clause, since the rule and the seats name it.

use std::collections::LinkedList;

// The view of one or more seats. It is for proofs alone, and no value of it is made.
pub struct LaneView {
    /// The lengths of the lanes.
    pub lengths: LinkedList<u64>,
    /// How many seats were opened.
    pub all: u64,
    /// How many seats stand in the view: 1, and more while the seats are dealt out or taken back.
    pub seats: u64,
    /// The numbers that were taken, each with its lane.
    pub taken: LinkedList<(u64, u64)>,
    /// The lanes that were seen to have ended.
    pub ends: LinkedList<u64>,
    /// The cells that were offered.
    pub offers: LinkedList<u64>,
    /// What the bound was at each look.
    pub looks: LinkedList<u64>,
}
