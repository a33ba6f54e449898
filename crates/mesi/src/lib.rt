//! Bus MESI: a coherence protocol on an atomic bus, where no call waits and no message is on its way.
#![tactic(auto)]

mod bus;
mod copies;
mod rows;

pub use bus::Mesi;
