//! The protocol: a row for each of the eight lines.

ghost use Rattle.std.specs.Prelude.{◌≡◌};
ghost use Rattle.protocol.specs.declared.steps.Step.TheVariants.{Load, Store, Evict};
ghost use Rattle.protocol.specs.Rules.{guarded};
ghost use Rattle.mesi_rules.specs.Bus.{State, start, act, moment, mesi_machine};
ghost use Rattle.mesi_rules.proofs.Law.{keeps};
ghost use Rattle.mesi.specs.Replies.{replied};

use crate::rows::Row;
use protocol::{Address, Core, Ended, Line, Protocol, Refusal, Reply};
use std::marker::Model;

/// Bus MESI, a row for each line.
#[derive(Drop)]
pub struct Mesi {
    rows: [Row; 8],
}

impl Model for Mesi {
    ghost Value = { State };

    ghost view = { λ m. m.rows };
}

/// The reply to a call: it is refused, or it ends at once.
fn reply(call: Result<Ended, Refusal>) -> Reply
    ensures { result ≡ replied call }
{
    call.map_or_else(Reply::Refused, Reply::Ended)
}

// A core and an address, or a line, stay two parameters, as in the rules: a struct of both would be taken apart in each function.
impl Mesi {
    /// Every core has I of every line, and the LLC's bytes are 00.
    pub fn new() -> Mesi
        ensures { result ≡ start }
    {
        Mesi {
            rows: [Row::cleared(); 8],
        }
    }

    /// Loads the byte of an address in its row.
    fn try_load(&mut self, core: u8, address: u8) -> Result<Ended, Refusal>
        ensures { (replied result, self.new) ≡ guarded moment act self.old (Load core address) }
    {
        let loader = Core::try_from(core)?;
        let at = Address::try_from(address)?;
        let byte = self.rows[at.line().index()].load(loader, at.offset());
        Ok(Ended::Loaded {
            core,
            address,
            byte,
        })
    }

    /// Stores the byte of an address in its row.
    fn try_store(&mut self, core: u8, address: u8, byte: u8) -> Result<Ended, Refusal>
        ensures { (replied result, self.new) ≡ guarded moment act self.old (Store core address byte) }
    {
        let storer = Core::try_from(core)?;
        let at = Address::try_from(address)?;
        self.rows[at.line().index()].store(storer, at.offset(), byte);
        Ok(Ended::Stored {
            core,
            address,
            byte,
        })
    }

    /// Evicts a core's copy from the line's row.
    fn try_evict(&mut self, core: u8, line: u8) -> Result<Ended, Refusal>
        ensures { (replied result, self.new) ≡ guarded moment act self.old (Evict core line) }
    {
        let evictor = Core::try_from(core)?;
        let gone = Line::try_from(line)?;
        self.rows[gone.index()].evict(evictor);
        Ok(Ended::Evicted { core, line })
    }
}

impl Protocol for Mesi {
    ghost machine = { mesi_machine };

    ghost state = { λ m. m };

    ghost keeps = { keeps };

    fn clear(&mut self) {
        *self = Mesi::new();
    }

    fn load(&mut self, core: u8, address: u8) -> Reply {
        reply(self.try_load(core, address))
    }

    fn store(&mut self, core: u8, address: u8, byte: u8) -> Reply {
        reply(self.try_store(core, address, byte))
    }

    fn acquire(&mut self, core: u8) -> Reply {
        reply(Core::try_from(core).map(|_| Ended::Acquired { core }))
    }

    fn release(&mut self, core: u8) -> Reply {
        reply(Core::try_from(core).map(|_| Ended::Released { core }))
    }

    fn evict(&mut self, core: u8, line: u8) -> Reply {
        reply(self.try_evict(core, line))
    }

    fn move_message(&mut self, _place: u8) -> Reply {
        Reply::Refused(Refusal::PlaceNotOpen)
    }

    fn image(&self, address: u8) -> Result<u8, Refusal> {
        let at = Address::try_from(address)?;
        let line = self.rows[at.line().index()].home();
        Ok(line[at.offset().index()])
    }

    fn next_open(&self, _place: u8) -> Option<u8> {
        None
    }
}
