//! A core's buffer, and what a core's call does to it and to the protocol below.

ghost use Rattle.std.specs.Prelude.{◌≡◌, ◌<◌, ◌==◌, ◌↔◌, length, IsTrue, IsSome, IfSome, position, None as Nothing};
ghost use Rattle.protocol.specs.declared.steps.Ended.TheVariants.{Stored};
ghost use Rattle.protocol.specs.declared.steps.Reply.TheVariants.{Ended as AtOnce};
ghost use Rattle.buffer_rules.specs.Rules.{waiting, load as load_rule, store as store_rule, store_new as store_new_rule, release as release_rule, moved, release_on, goes_on, ended_below};
ghost use Rattle.buffer_rules.specs.Entries.{capacity, added};
ghost use Rattle.store_buffer.specs.Held.{Does};

use arrayvec::ArrayVec;
use buffer_rules::Entry;
use protocol::{Ended, Protocol, Reply, Step};
use std::marker::Model;

/// A core's entries, four at most and oldest first, and the call that the core waits for.
#[derive(Default, Drop)]
pub struct CoreBuffer {
    entries: ArrayVec<Entry, 4>,
    pending: Option<Step>,
}

impl Model for CoreBuffer {
    ghost use Rattle.std.specs.Prelude.{◌≤◌, length};
    ghost use Rattle.buffer_rules.specs.Entries.{capacity};
    ghost use Rattle.buffer_rules.specs.Rules.{Buffer};

    ghost Value = { Buffer };

    ghost view = { λ b. record { entries = b.entries.items; pending = b.pending } };

    ghost invariant = { λ b. length b.entries.items ≤ capacity };
}

/// What a move answers that has made a waiting call go on.
fn in_move(reply: Reply) -> Reply
    ensures { result ≡ moved reply }
{
    match reply {
        Reply::Waits => Reply::Moved,
        Reply::Ended(ended) => Reply::Finished(ended),
        _ => reply,
    }
}

// Each method takes the core and the protocol below as arguments: a struct of `&mut` to the buffer and to the protocol below would
// promise in each method that they are the same references afterwards.
impl CoreBuffer {
    /// Whether the core waits for a call.
    pub fn waits(&self) -> bool
        ensures { IsTrue result ↔ IsSome self.now.pending }
    {
        self.pending.is_some()
    }

    /// Where the entry for an address stands.
    fn index_of(&self, address: u8) -> Option<usize>
        ensures value { result ≡ position (λ e. e.address == address) self.now.entries }
        ensures bound { IfSome result (λ i. i < length self.now.entries) }
    {
        self.entries.iter().position(|e| e.address == address)
    }

    /// A call stops with a reply: the core waits for the call if the reply is that it waits, and else for nothing.
    pub fn stop(&mut self, call: Step, reply: Reply) -> Reply
        ensures answer { result ≡ reply }
        ensures left { self.new ≡ record { entries = self.old.entries; pending = waiting call reply } }
    {
        self.pending = (reply == Reply::Waits).then_some(call);
        reply
    }

    /// Ends the store of an entry.
    fn end_store(&mut self, core: u8, entry: Entry) -> Reply
        ensures answer { result ≡ AtOnce (Stored core entry.address entry.byte) }
        ensures left { self.new ≡ record { entries = self.old.entries; pending = Nothing } }
    {
        self.pending = None;
        Reply::Ended(Ended::Stored {
            core,
            address: entry.address,
            byte: entry.byte,
        })
    }

    /// Adds an entry as the youngest, and ends its store.
    fn enter(&mut self, core: u8, entry: Entry) -> Reply
        requires { length self.old.entries < capacity }
        ensures answer { result ≡ AtOnce (Stored core entry.address entry.byte) }
        ensures left { self.new ≡ record { entries = added entry.address entry.byte self.old.entries; pending = Nothing } }
    {
        self.entries.push(entry);
        self.end_store(core, entry)
    }

    /// A load answers from an entry, else from below.
    pub fn load<P: Protocol>(&mut self, below: &mut P, core: u8, address: u8) -> Reply
        ensures { Does P.machine (load_rule core address self.old.entries) (P.state below.old) result self.new (P.state below.new) }
    {
        let call = Step::Load { core, address };
        match self.index_of(address) {
            Some(index) => {
                let byte = self.entries[index].byte;
                self.stop(
                    call,
                    Reply::Ended(Ended::Loaded {
                        core,
                        address,
                        byte,
                    }),
                )
            }
            None => self.stop(call, below.load(core, address)),
        }
    }

    /// A store to an address without entry takes a free entry, else the oldest entry is first stored below.
    fn store_new<P: Protocol>(&mut self, below: &mut P, core: u8, entry: Entry) -> Reply
        ensures { Does P.machine (store_new_rule core entry.address entry.byte self.old.entries) (P.state below.old) result self.new (P.state below.new) }
    {
        if !self.entries.is_full() {
            return self.enter(core, entry);
        }
        let oldest = self.entries[0];
        match below.store(core, oldest.address, oldest.byte) {
            Reply::Ended(_) => {
                self.entries.remove(0);
                self.enter(core, entry)
            }
            reply => self.stop(
                Step::Store {
                    core,
                    address: entry.address,
                    byte: entry.byte,
                },
                reply,
            ),
        }
    }

    /// A store to an entry's address replaces its byte in position.
    pub fn store<P: Protocol>(&mut self, below: &mut P, core: u8, address: u8, byte: u8) -> Reply
        ensures { Does P.machine (store_rule core address byte self.old.entries) (P.state below.old) result self.new (P.state below.new) }
    {
        let entry = Entry { address, byte };
        match self.index_of(address) {
            Some(index) => {
                self.entries[index] = entry;
                self.end_store(core, entry)
            }
            None => self.store_new(below, core, entry),
        }
    }

    /// A release stores all entries below, oldest first, then releases below.
    pub fn release<P: Protocol>(&mut self, below: &mut P, core: u8) -> Reply
        ensures { Does P.machine (release_rule core self.old.entries) (P.state below.old) result self.new (P.state below.new) }
    {
        let call = Step::Release { core };
        while let Some(oldest) = self.entries.first().copied() {
            match below.store(core, oldest.address, oldest.byte) {
                Reply::Ended(_) => {
                    self.entries.remove(0);
                }
                reply => return self.stop(call, reply),
            }
        }
        self.stop(call, below.release(core))
    }

    /// A release goes on: the store of the oldest entry has ended below, else the release itself.
    fn release_on<P: Protocol>(&mut self, below: &mut P, core: u8, ended: Ended) -> Reply
        ensures { Does P.machine (release_on core ended self.old.entries) (P.state below.old) result self.new (P.state below.new) }
    {
        match self.entries.pop_at(0) {
            None => self.stop(Step::Release { core }, Reply::Finished(ended)),
            Some(_) => in_move(self.release(below, core)),
        }
    }

    /// A waiting call goes on, its call below having ended. A store enters its byte once the oldest entry has left; a load or an
    /// acquire has ended as the same call below.
    fn resume<P: Protocol>(&mut self, below: &mut P, call: Step, ended: Ended) -> Reply
        ensures { Does P.machine (goes_on ended self.old.entries call) (P.state below.old) result self.new (P.state below.new) }
    {
        match call {
            Step::Store {
                core,
                address,
                byte,
            } => {
                let entry = Entry { address, byte };
                let _ = self.entries.pop_at(0);
                in_move(self.enter(core, entry))
            }
            Step::Release { core } => self.release_on(below, core, ended),
            _ => self.stop(call, Reply::Finished(ended)),
        }
    }

    /// A call has ended below: the call that the core waits for goes on.
    pub fn go_on<P: Protocol>(&mut self, below: &mut P, ended: Ended) -> Reply
        ensures { Does P.machine (ended_below ended self.old self.old.pending) (P.state below.old) result self.new (P.state below.new) }
    {
        match self.pending {
            None => Reply::Finished(ended),
            Some(call) => self.resume(below, call, ended),
        }
    }
}
