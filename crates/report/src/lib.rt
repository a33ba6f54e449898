//! The lines of a report.
#![tactic(auto)]

mod digits;
mod lines;
mod page;

pub use digits::{byte_digits, decimal_digits, last_digits};
pub use lines::{ended_line, step_line};
pub use page::Page;
