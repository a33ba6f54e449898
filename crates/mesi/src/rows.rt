//! A line's row: its copies at the eight cores, and the LLC's line.

ghost use Rattle.std.specs.Prelude.{◌≡◌, true};
ghost use Rattle.mesi_rules.specs.Copies.{owner_alone};
ghost use Rattle.mesi_rules.specs.Rows.{LineRow, cleared_row, home_line, seen_line, seen_at, flushed, taken, transacted, finished, owned, loaded, stored, evicted};

use crate::copies::{downgrade, fetched, modified_or, some_hold};
use mesi_rules::{Call, PrivateLine};
use protocol::{Core, Offset};
use std::marker::Model;

/// The copies of one line by core, and the LLC's line. Where a core has M or E, every other core has I.
#[derive(Clone, Copy)]
pub struct Row {
    copies: [PrivateLine; 8],
    llc: [u8; 8],
}

impl Model for Row {
    ghost Value = { LineRow };

    ghost view = { λ r. record { copies = r.copies; llc = r.llc } };

    ghost invariant = { λ r. owner_alone r.copies ≡ true };

    ghost inverse = { λ r. record { copies = r.copies; llc = r.llc } };
}

impl Row {
    /// I at every core, and 00 in the LLC.
    pub fn cleared() -> Row
        ensures { result ≡ cleared_row }
    {
        Row {
            copies: [PrivateLine::Invalid; 8],
            llc: [0; 8],
        }
    }

    /// The M copy, else the LLC's line.
    pub fn home(&self) -> &[u8; 8]
        ensures { result.now ≡ home_line self.now }
    {
        modified_or(&self.copies, &self.llc)
    }

    /// The core's own copy if it holds the line, else home.
    fn seen(&self, core: Core) -> &[u8; 8]
        ensures { result.now ≡ seen_line self.now core.number }
    {
        self.copies[core.index()]
            .held()
            .unwrap_or_else(|| self.home())
    }

    /// A core's M line goes into the LLC.
    fn flush(&mut self)
        ensures { self.new ≡ flushed self.old }
    {
        self.llc = *self.home();
    }

    /// M or E becomes S, and the core takes the LLC's line: as S if another core holds it, else as E.
    #[tactic(auto, using(crate::proofs::Alone::alone_fetched))]
    fn take(&mut self, core: Core)
        ensures { self.new ≡ taken self.old core.number }
    {
        let others_hold = some_hold(&self.copies);
        downgrade(&mut self.copies);
        self.copies[core.index()] = fetched(others_hold, self.llc);
    }

    /// What goes over the bus at a call, by the state of the caller's copy.
    // A table by state and call, as the rules have it; `if`s in each call would hide the cases in which nothing goes over the bus.
    fn transact(&mut self, core: Core, call: Call)
        ensures { self.new ≡ transacted self.old core.number call }
    {
        match (&self.copies[core.index()], call) {
            (PrivateLine::Invalid, Call::Load | Call::Store) => {
                self.flush();
                self.take(core);
            }
            (PrivateLine::Modified(line), Call::Evict) => self.llc = *line,
            (
                PrivateLine::Shared(_) | PrivateLine::Exclusive(_) | PrivateLine::Modified(_),
                Call::Load | Call::Store,
            ) => {}
            (
                PrivateLine::Invalid | PrivateLine::Shared(_) | PrivateLine::Exclusive(_),
                Call::Evict,
            ) => {}
        }
    }

    /// The core has the line in M, and all others have I.
    fn finish(&mut self, core: Core, line: [u8; 8])
        ensures { self.new ≡ finished self.old core.number line }
    {
        self.copies = [PrivateLine::Invalid; 8];
        self.copies[core.index()] = PrivateLine::Modified(line);
    }

    /// The core gets the line for a store. Where it has it in M already, all others have I.
    #[tactic(auto, using(crate::proofs::Owned::own_modified))]
    fn own(&mut self, core: Core)
        ensures { self.new ≡ owned self.old core.number }
    {
        if self.copies[core.index()].is_modified() {
            return;
        }
        self.transact(core, Call::Store);
        let line = *self.seen(core);
        self.finish(core, line);
    }

    /// Answers the byte that the core then sees.
    pub fn load(&mut self, core: Core, offset: Offset) -> u8
        ensures row { self.new ≡ loaded self.old core.number }
        ensures byte { result ≡ seen_at (loaded self.old core.number) core.number offset.number }
    {
        self.transact(core, Call::Load);
        self.seen(core)[offset.index()]
    }

    /// Writes the byte into the line that the core then has in M.
    pub fn store(&mut self, core: Core, offset: Offset, byte: u8)
        ensures { self.new ≡ stored self.old core.number offset.number byte }
    {
        self.own(core);
        self.copies[core.index()].write(offset, byte);
    }

    /// Leaves I at the core.
    #[tactic(auto, using(crate::proofs::Alone::alone_evicted))]
    pub fn evict(&mut self, core: Core)
        ensures { self.new ≡ evicted self.old core.number }
    {
        self.transact(core, Call::Evict);
        self.copies[core.index()] = PrivateLine::Invalid;
    }
}
