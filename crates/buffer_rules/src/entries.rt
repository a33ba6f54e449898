//! What a store buffer holds.

/// A buffered store: a byte for an address.
#[derive(Clone, Copy, Default)]
pub struct Entry {
    pub address: u8,
    pub byte: u8,
}
