//! A store buffer over any protocol, which is again a protocol.
#![tactic(auto)]

mod buffer;
mod core_buffer;
mod stack;

pub use buffer::StoreBuffer;
pub use stack::stacked;
