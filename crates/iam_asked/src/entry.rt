// A request as it is kept.

/// The numbers of a request, and that of its context, from 1 on; 0 where it gives no keys.
#[derive(Clone, Copy, Debug)]
pub struct Entry {
    pub principal: u32,
    pub action: u32,
    pub resource: u32,
    pub context: u32,
}
