//! The rules of bus MESI and the proof that they keep the meaning of a protocol.
#![tactic(auto)]

ghost use Rattle.protocol.specs.Meaning.{Meaning};
ghost use Rattle.mesi_rules.specs.Bus.{mesi_machine};

mod calls;
mod copies;

pub use calls::Call;
pub use copies::PrivateLine;

/// States the theorem of this crate: the rules of bus MESI keep the whole meaning of a protocol.
pub fn rules_keep_the_meaning()
    ensures { Meaning mesi_machine }
{}
