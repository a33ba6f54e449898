//! The interface that the bench and the store buffer stand on.

ghost use Rattle.protocol.specs.Meaning.{Machine, Meaning};
ghost use Rattle.protocol.specs.declared.steps.Step.TheVariants.{Load, Store, Acquire, Release, Evict, Move};

use crate::steps::{Refusal, Reply};

/// A coherence protocol over eight cores, 64 addresses of one byte and 256 places for messages.
///
/// `machine` is what the protocol is for a proof, `state` the state that it is in, and `keeps` that the machine keeps the meaning.
/// Each method is one step of the machine: its contract says that the answer and the state after it are the machine's.
pub trait Protocol {
    ghost machine: { Machine };

    ghost state: { Self → machine.State };

    /// Begins anew: every byte is 00 and nothing is on its way.
    fn clear(&mut self)
        ensures { machine.fresh (state self.new) };

    fn load(&mut self, core: u8, address: u8) -> Reply
        ensures { machine.steps (state self.old) (Load core address) result (state self.new) };

    fn store(&mut self, core: u8, address: u8, byte: u8) -> Reply
        ensures { machine.steps (state self.old) (Store core address byte) result (state self.new) };

    fn acquire(&mut self, core: u8) -> Reply
        ensures { machine.steps (state self.old) (Acquire core) result (state self.new) };

    fn release(&mut self, core: u8) -> Reply
        ensures { machine.steps (state self.old) (Release core) result (state self.new) };

    fn evict(&mut self, core: u8, line: u8) -> Reply
        ensures { machine.steps (state self.old) (Evict core line) result (state self.new) };

    /// Moves the message at a place.
    fn move_message(&mut self, place: u8) -> Reply
        ensures { machine.steps (state self.old) (Move place) result (state self.new) };

    /// The byte that the whole has of an address.
    fn image(&self, address: u8) -> Result<u8, Refusal>
        ensures { machine.images (state self.now) address result };

    /// The first open place at or after a place.
    fn next_open(&self, place: u8) -> Option<u8>
        ensures { machine.opens (state self.now) place result };

    ghost keeps: { Meaning machine };
}
