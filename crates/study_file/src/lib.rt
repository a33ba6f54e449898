//! The file of a study: its reader, the plan made of its records, and its writer.
#![tactic(auto)]

mod codes;
mod plans;
mod record;
mod records;
mod writer;

pub use codes::{Code, Kind};
pub use plans::{Failure, Plan, read, step_of_fields};
pub use record::Record;
pub use records::{MOST_BYTES, Reader};
pub use writer::write;
