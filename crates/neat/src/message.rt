//! What goes between a core and the shared cache.

use crate::block::Block;

/// A message about a line. GetLine, Put and Commit go to the LLC, Data and PutAck are its answers.
#[derive(Clone, Copy)]
pub enum Message {
    GetLine,
    Data([u8; 8]),
    Put(Block),
    PutAck,
    Commit(Block),
}

/// Where the Close of a core is. Close and PutAllAck are messages in its close place.
#[derive(Clone, Copy, PartialEq, Eq)]
pub enum Closing {
    /// There is none.
    Shut,
    /// On its way, with the number of Commits.
    Close(u8),
    /// Moved: the LLC has noted the number of Commits, and waits for the rest.
    Noted(u8),
    /// All Commits are received, and the answer is on its way.
    PutAllAck,
}
