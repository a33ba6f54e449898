//! The call log of a study, the race rule, the table that marks races, and what holds of every study over every protocol.
#![tactic(auto)]

mod outcomes;
mod table;

pub use outcomes::Outcome;
pub use table::{Newest, RaceTable};
