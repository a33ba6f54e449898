//! The coherence protocol Neat: private lines with write bits, sent to the shared cache at release, acquire and eviction.
#![tactic(auto)]

mod block;
mod caches;
mod core_part;
mod message;
mod neat_protocol;
mod place;
mod slot;

pub use neat_protocol::Neat;
