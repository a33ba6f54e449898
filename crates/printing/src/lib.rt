//! Whole studies, printed.
#![tactic(auto)]

mod faults;
mod pages;

pub use faults::fault_line;
pub use pages::print_study;
