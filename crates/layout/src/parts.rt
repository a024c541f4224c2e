//! The result of splitting an object's words.

/// An object's words as three disjoint borrows of one slice.
#[derive(Drop)]
pub struct Split<'a> {
    /// The header's bits.
    pub header: &'a mut u64,
    /// The references.
    pub refs: &'a mut [u64],
    /// The data.
    pub data: &'a mut [u64],
}
