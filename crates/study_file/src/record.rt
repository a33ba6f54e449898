//! A record, as the reader hands it on.

use crate::codes::Kind;

/// A sound record: its kind, its body as that part of the file, and the place of its first byte.
// That the body has the kind's fields stands in `next_record`'s promise, and what takes a record apart asks for it: as a ghost field it would
// be asked of everybody who makes a record.
#[derive(Clone, Copy)]
pub struct Record<'a> {
    pub kind: Kind,
    pub body: &'a [u8],
    pub place: u16,
}
