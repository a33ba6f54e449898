//! The rules of the protocol Neat and the proof that they keep the meaning of a protocol.
#![tactic(auto)]

ghost use Rattle.protocol.specs.Meaning.{Meaning};
ghost use Rattle.neat_rules.specs.Machine.{neat};

/// States the theorem of this crate: Neat's rules keep the whole meaning of a protocol.
pub fn rules_keep_the_meaning()
    ensures { Meaning neat }
{}
