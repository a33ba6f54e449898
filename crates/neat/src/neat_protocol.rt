//! Neat behind the interface that every protocol keeps.

ghost use Rattle.std.specs.Prelude.{◌≡◌, ◌+◌, ◌<◌, true, cond, nat_le, IfOk};
ghost use Rattle.protocol.specs.Meaning.{Reached, busy};
ghost use Rattle.protocol.specs.declared.steps.Refusal.TheVariants.{NoSuchCore};
ghost use Rattle.neat_rules.specs.State.{start};
ghost use Rattle.neat_rules.specs.Machine.{neat};
ghost use Rattle.neat_rules.specs.Reading.{moment, open_in, next_open};
ghost use Rattle.neat.specs.Calls.{refusal_of, or_else};
ghost use Rattle.neat.specs.Whole.{as_state};
ghost use Rattle.neat_rules.proofs.Keeps.{neat_keeps};

use crate::caches::Caches;
use crate::place::Place;
use protocol::{Address, Core, Line, Protocol, Refusal, Reply};

/// The protocol Neat. Its caches are always in a state that a clear and the steps after it have led to.
#[derive(Clone, Copy)]
pub struct Neat {
    caches: Caches,
    ghost reached: { ∥ Reached neat (as_state caches) ∥₁ },
}

impl Neat {
    /// Neat as a clear leaves it.
    pub fn new() -> Neat
        ensures { as_state result.caches ≡ start }
    {
        Neat {
            caches: Caches::new(),
        }
    }

    /// Whether the place of that number carries a message.
    fn is_open(&self, number: u8) -> bool
        ensures { result ≡ open_in (as_state self.now.caches) number }
    {
        Place::try_from(number).is_ok_and(|place| self.caches.is_open(place))
    }

    /// Whether the nine places of a core begin at that number, and none of them carries a message.
    fn is_quiet_from(&self, number: u8) -> bool
        ensures { result ≡ true → (number < 64) × (next_open (as_state self.now.caches) number ≡ next_open (as_state self.now.caches) (number + 9)) }
    {
        number % 9 == 0 && Core::try_from(number / 9).is_ok_and(|core| self.caches.is_quiet(core))
    }

    /// The core that calls and what it names, or why the call is refused.
    // The store buffer makes three like tests in `admit`. Who waits is each one's own state: a shared function would be public, take that as
    // a closure, and ask that it may be called, which no public call here does.
    fn caller<T: Drop>(&self, core: u8, named: Result<T, Refusal>) -> Result<(Core, T), Refusal>
        ensures refused { refusal_of result ≡ cond (nat_le 8 core) (Some NoSuchCore) (or_else (refusal_of named) (busy ((moment (as_state self.now.caches)).waits core))) }
        ensures called { IfOk result (λ p. (p.0.number ≡ core) × (named ≡ Ok p.1)) }
    {
        let core = Core::try_from(core)?;
        let named = named?;
        if self.caches.waits(core) {
            return Err(Refusal::CoreWaits);
        }
        Ok((core, named))
    }
}

impl Protocol for Neat {
    ghost machine = { neat };

    ghost state = { λ p. as_state p.caches };

    ghost keeps = { neat_keeps };

    fn clear(&mut self) {
        self.caches = Caches::new();
    }

    // Each call turns a refusal into its reply. One function for all, with what is done as a closure, can't show that a step leads to the
    // state in which it ends: the numbers in that step are not among what it is given.

    fn load(&mut self, core: u8, address: u8) -> Reply {
        match self.caller(core, Address::try_from(address)) {
            Ok((core, address)) => self.caches.load(core, address),
            Err(refusal) => Reply::Refused(refusal),
        }
    }

    fn store(&mut self, core: u8, address: u8, byte: u8) -> Reply {
        match self.caller(core, Address::try_from(address)) {
            Ok((core, address)) => self.caches.store(core, address, byte),
            Err(refusal) => Reply::Refused(refusal),
        }
    }

    fn acquire(&mut self, core: u8) -> Reply {
        match self.caller(core, Ok(())) {
            Ok((core, ())) => self.caches.acquire(core),
            Err(refusal) => Reply::Refused(refusal),
        }
    }

    fn release(&mut self, core: u8) -> Reply {
        match self.caller(core, Ok(())) {
            Ok((core, ())) => self.caches.release(core),
            Err(refusal) => Reply::Refused(refusal),
        }
    }

    fn evict(&mut self, core: u8, line: u8) -> Reply {
        match self.caller(core, Line::try_from(line)) {
            Ok((core, line)) => self.caches.evict(core, line),
            Err(refusal) => Reply::Refused(refusal),
        }
    }

    fn move_message(&mut self, place: u8) -> Reply {
        match Place::try_from(place) {
            Ok(place) if self.caches.is_open(place) => self.caches.deliver(place),
            _ => Reply::Refused(Refusal::PlaceNotOpen),
        }
    }

    fn image(&self, address: u8) -> Result<u8, Refusal> {
        let address = Address::try_from(address)?;
        Ok(self.caches.byte(address))
    }

    fn next_open(&self, place: u8) -> Option<u8> {
        // A `find` over the numbers has no step of nine: a study that settles made 5.5 million steps a second with it, and makes 13.6 so.
        // Nor is it a `for` over the cores with a `find` in each: a place may begin in the middle of a core's nine, so the first core would
        // have a range of its own, and the rules' search, which goes place by place, would have to be cut into these ranges.
        let mut number = place;
        while number < 72 {
            if self.is_quiet_from(number) {
                number += 9;
            } else if self.is_open(number) {
                return Some(number);
            } else {
                number += 1;
            }
        }
        None
    }
}
