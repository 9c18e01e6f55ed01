// A run of grains, in a file of its own with no clause, since the rule of the deques and the seats name it.

/// The grains from `first` on, `count` of them. A run that a seat holds is not empty.
#[derive(Clone, Copy, Debug, PartialEq, Eq)]
pub struct Run {
    /// The first grain.
    pub first: u64,
    /// How many grains there are.
    pub count: u64,
}
