// Two states of the same accounts.

use iam_every::Asked;

/// A state: what is asked of all names in its world, and the number there of the principal who asks, if the world has it.
#[derive(Clone, Copy)]
pub struct State<'a> {
    pub asked: Asked<'a>,
    pub principal: Option<u64>,
}

/// The state before and the state after.
#[derive(Clone, Copy)]
pub struct Both<'a> {
    pub before: State<'a>,
    pub after: State<'a>,
}
