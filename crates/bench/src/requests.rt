//! What a study may ask of a bench, and what is answered.

use crate::faults::Fault;
use protocol::{Refusal, Step};
use races::Outcome;

/// One thing that a study asks. The outcomes of a run and of a settling are written behind those of the requests before it; `room` is
/// how many outcomes they may have.
#[derive(Clone, Copy)]
pub enum Request<'a> {
    Step(Step),
    Run { steps: &'a [Step], room: usize },
    Settle { room: usize },
    Image { address: u8 },
    NextOpen { place: u8 },
}

/// What is answered to a request.
#[derive(Clone, Copy)]
pub enum Answer {
    Stepped(Outcome),
    Ran(Result<(), Fault>),
    Settled { moves: usize, open: bool },
    Imaged(Result<u8, Refusal>),
    Found(Option<u8>),
}
