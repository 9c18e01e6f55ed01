/// A layer of policies, in the order in which places stand.
#[derive(Clone, Copy, Debug, PartialEq, Eq)]
pub enum Layer {
    /// The organisation policies of the requester's account.
    Org,
    /// The resource control policies of the resource.
    Control,
    /// The policy of the resource.
    Resource,
    /// The identity policies of the requester.
    Identity,
    /// The permissions boundary of the requester.
    Boundary,
    /// The session policies of the requester.
    Session,
}

/// Where a statement stands, numbered from 0. A part that its layer does not have is 0.
#[derive(Clone, Copy, Debug, PartialEq, Eq)]
pub struct Place {
    /// The layer of its policy.
    pub layer: Layer,
    /// The level of an organisation policy or a resource control policy, from the root.
    pub level: u32,
    /// The number of its policy in the level.
    pub policy: u32,
    /// Its number in the policy.
    pub statement: u32,
}

impl Place {
    /// A number that tells most lists of places apart, where the last of them is this one and those before it have this number.
    pub fn print(&self, before: u64) -> u64 {
        let numbers = (self.layer as u64) << 60
            | (self.level as u64) << 42
            | (self.policy as u64) << 21
            | self.statement as u64;
        (before ^ numbers)
            .wrapping_mul(0x9e37_79b9_7f4a_7c15)
            .rotate_left(23)
    }
}
