//! All caches: the cores' parts and the last-level cache (LLC).

ghost use Rattle.std.specs.Prelude.{◌≡◌, ◌<◌};
ghost use Rattle.protocol.specs.Cells.{line_of, offset_of};
ghost use Rattle.neat_rules.specs.State.{start};
ghost use Rattle.neat_rules.specs.Rules.{at_core, load as load_rule, store as store_rule, evict as evict_rule, release as release_rule, acquire as acquire_rule};
ghost use Rattle.neat.specs.Parts.{waiting, quiet};
ghost use Rattle.neat.specs.Whole.{as_state, core_at, open_there, moved_there};

use crate::core_part::CorePart;
use crate::place::Place;
use protocol::{Address, Core, Line, Reply};

/// The cores' parts and the lines of the LLC.
// They have no `Model`: a model's value is data, and Neat's rules are over functions of the core, the line and the offset.
#[derive(Clone, Copy)]
pub struct Caches {
    cores: [CorePart; 8],
    llc: [[u8; 8]; 8],
}

impl Caches {
    /// Every private line is I, nothing is on its way, and every byte of the LLC is 00.
    pub fn new() -> Caches
        ensures { as_state result ≡ start }
    {
        Caches {
            cores: [CorePart::new(); 8],
            llc: [[0; 8]; 8],
        }
    }

    /// Whether a core waits for a call.
    pub fn waits(&self, core: Core) -> bool
        ensures { result ≡ waiting ((as_state self.now).cores core.number).activity }
    {
        self.cores[core.index()].waits()
    }

    // One method for each call, and none that lends a core's part: after a loan each caller had to say what the whole has become.

    pub fn load(&mut self, core: Core, address: Address) -> Reply
        ensures { (result, as_state self.new) ≡ at_core (as_state self.old) core.number (load_rule core.number address.number ((as_state self.old).cores core.number)) }
    {
        self.cores[core.index()].load(core, address)
    }

    pub fn store(&mut self, core: Core, address: Address, byte: u8) -> Reply
        ensures { (result, as_state self.new) ≡ at_core (as_state self.old) core.number (store_rule core.number address.number byte ((as_state self.old).cores core.number)) }
    {
        self.cores[core.index()].store(core, address, byte)
    }

    pub fn acquire(&mut self, core: Core) -> Reply
        ensures { (result, as_state self.new) ≡ at_core (as_state self.old) core.number (acquire_rule ((as_state self.old).cores core.number)) }
    {
        self.cores[core.index()].acquire()
    }

    pub fn release(&mut self, core: Core) -> Reply
        ensures { (result, as_state self.new) ≡ at_core (as_state self.old) core.number (release_rule ((as_state self.old).cores core.number)) }
    {
        self.cores[core.index()].release()
    }

    pub fn evict(&mut self, core: Core, line: Line) -> Reply
        ensures { (result, as_state self.new) ≡ at_core (as_state self.old) core.number (evict_rule core.number line.number ((as_state self.old).cores core.number)) }
    {
        self.cores[core.index()].evict(core, line)
    }

    /// Whether a place carries a message.
    pub fn is_open(&self, place: Place) -> bool
        ensures { result ≡ open_there (as_state self.now) place }
    {
        match place {
            Place::Line(core, line) => self.cores[core.index()].carries(line),
            Place::Close(core) => self.cores[core.index()].close_carries(),
        }
    }

    /// Whether none of a core's places carries a message.
    pub fn is_quiet(&self, core: Core) -> bool
        ensures { result ≡ quiet ((as_state self.now).cores core.number) }
    {
        self.cores[core.index()].is_quiet()
    }

    /// Moves the message at a place.
    pub fn deliver(&mut self, place: Place) -> Reply
        requires { ((as_state self.old).cores (core_at place)).received < 255 }
        ensures { (result, as_state self.new) ≡ moved_there (as_state self.old) place }
    {
        match place {
            Place::Line(core, line) => {
                self.cores[core.index()].move_message(core, line, &mut self.llc[line.index()])
            }
            Place::Close(core) => self.cores[core.index()].move_close(core),
        }
    }

    /// The LLC's byte of an address.
    pub fn byte(&self, address: Address) -> u8
        ensures { result ≡ (as_state self.now).llc (line_of address.number) (offset_of address.number) }
    {
        self.llc[address.line().index()][address.offset().index()]
    }
}
