/// What a decision asks beside the statements that match: how many levels have to allow, whether there are a boundary and
/// session policies, and what the accounts and the resource ask.
#[derive(Clone, Copy, Debug, PartialEq, Eq)]
pub struct Frame {
    /// The levels of organisation policies.
    pub org: u32,
    /// The levels of resource control policies.
    pub control: u32,
    /// Whether there is a permissions boundary.
    pub boundary: bool,
    /// Whether there are session policies.
    pub session: bool,
    /// Whether requester and resource are of one account.
    pub same_account: bool,
    /// Whether the policy of the resource must grant also in the same account.
    pub sealed: bool,
}

impl Frame {
    /// A number that tells most frames of one requester apart.
    pub fn print(&self) -> u64 {
        let account = if self.same_account { 1 } else { 0 };
        let sealed = if self.sealed { 2 } else { 0 };
        (self.control as u64) << 2 | sealed | account
    }
}
