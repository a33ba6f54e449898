//! What every coherence protocol of the bench is: its steps, its answers, and the meaning that it keeps.
#![tactic(auto)]

mod cells;
mod interface;
mod steps;

pub use cells::{Address, Core, Line, Offset};
pub use interface::Protocol;
pub use steps::{Ended, Refusal, Reply, Step};
