//! The rules of the store buffer over any protocol, and the proof that it is a protocol again.
#![tactic(auto)]

mod entries;

pub use entries::Entry;
