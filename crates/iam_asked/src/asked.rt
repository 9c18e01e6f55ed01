// What a request asks for, by numbers.

/// The numbers of the principal, the action and the resource of a request.
#[derive(Clone, Copy, Debug, PartialEq, Eq)]
pub struct Asked {
    pub principal: u64,
    pub action: u64,
    pub resource: u64,
}
