//! The bench: one protocol of any kind and the race table beside it.
#![tactic(auto)]

mod benches;
mod faults;
mod handovers;
mod requests;
mod runs;
mod studies;

pub use benches::Bench;
pub use faults::{Cause, Fault, Layer};
pub use requests::{Answer, Request};
