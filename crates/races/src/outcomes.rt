//! What the bench answers to a step.

use protocol::{Ended, Refusal};

/// What a step came to: the protocol's answer, with the race mark on an ended call.
// Not `Reply` with a type parameter for the call: programs match on these fields, and a payload of its own would be one more name in each.
#[derive(Clone, Copy, PartialEq, Eq, Debug)]
pub enum Outcome {
    Refused(Refusal),
    Waits,
    Ended { call: Ended, race: bool },
    Moved,
    Finished { call: Ended, race: bool },
}
