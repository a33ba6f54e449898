//! The race table: all that the races still to come depend on, in fixed room.

ghost use Rattle.std.specs.Prelude.{◌≡◌, ◌&&◌, map, nat_lt, option_map, slice_index_or};
ghost use Rattle.races.specs.Table.{none_yet, stored_by, released_by, acquired_by, has_acquired, store_races, entry_races, ChangesBy, stores_after, table_races, noted, start, marked};

use crate::outcomes::Outcome;
use protocol::{Core, Ended, Reply};

/// The newest store to one address.
#[derive(Clone, Copy)]
pub struct Newest {
    /// The core that made it.
    storer: u8,
    /// Which cores have acquired since that core released, or none if it has not.
    acquired: Option<[bool; 8]>,
}

/// The newest store to each address, how many calls have ended, and the number of the first race.
#[derive(Clone, Copy)]
pub struct RaceTable {
    newest: [Option<Newest>; 64],
    /// How many core calls have ended, at most 65,535.
    pub ended: u16,
    /// The number of the first race, or 0.
    // A number, and no `Option` of one: a bench promises it so, a report prints it so, 0 for none, and the log's definition says it so.
    pub first_race: u16,
}

impl Newest {
    fn stored_by(core: u8) -> Newest
        ensures { result ≡ stored_by core }
    {
        Newest {
            storer: core,
            acquired: None,
        }
    }

    /// A release by the core has ended.
    fn release(&mut self, core: u8)
        ensures { self.new ≡ released_by core self.old }
    {
        if self.storer == core {
            self.acquired = Some(self.acquired.unwrap_or([false; 8]));
        }
    }

    /// An acquire of the core has ended.
    fn acquire(&mut self, core: Core)
        ensures { self.new ≡ acquired_by core.number self.old }
    {
        if let Some(acquired) = &mut self.acquired {
            acquired[core.index()] = true;
        }
    }

    /// Whether the core has acquired since the storer released.
    fn has_acquired(&self, core: Core) -> bool
        ensures { result ≡ has_acquired core.number self.now.acquired }
    {
        matches!(self.acquired, Some(acquired) if acquired[core.index()])
    }

    /// Whether a load or store of the core races with the store.
    fn races(&self, core: Core) -> bool
        ensures { result ≡ store_races core.number self.now }
    {
        self.storer != u8::from(core) && !self.has_acquired(core)
    }
}

/// Changes each newest store.
fn change_each<F: Fn(&mut Newest)>(newest: &mut [Option<Newest>; 64], change: F)
    requires { F.IsAlwaysCallable change }
    ensures { (f : _) → ChangesBy (F.post change) f → newest.new ≡ map (option_map f) newest.old }
{
    for entry in newest.iter_mut() {
        if let Some(store) = entry {
            change(store);
        }
    }
}

/// Whether a load or store races with the newest store to its address.
fn access_races(newest: &[Option<Newest>; 64], core: u8, address: u8) -> bool
    ensures { result ≡ (nat_lt core 8 && entry_races core (slice_index_or newest.now address none_yet)) }
{
    match (Core::try_from(core), newest.get(usize::from(address))) {
        (Ok(core), Some(Some(store))) => store.races(core),
        _ => false,
    }
}

impl RaceTable {
    /// The table of a study that has just been set up.
    pub fn new() -> RaceTable
        ensures { result ≡ start }
    {
        RaceTable {
            newest: [None; 64],
            ended: 0,
            first_race: 0,
        }
    }

    /// Whether a call that has just ended races.
    fn races(&self, call: Ended) -> bool
        ensures { result ≡ table_races call self.now.newest }
    {
        match call {
            Ended::Loaded { core, address, .. } | Ended::Stored { core, address, .. } =>
                access_races(&self.newest, core, address),
            _ => false,
        }
    }

    /// Takes a call that has just ended into the newest stores.
    fn take(&mut self, call: Ended)
        ensures { self.new ≡ record { newest = stores_after call self.old.newest; ended = self.old.ended; first_race = self.old.first_race } }
    {
        match call {
            Ended::Stored { core, address, .. } => {
                if address < 64 {
                    self.newest[usize::from(address)] = Some(Newest::stored_by(core));
                }
            }
            Ended::Acquired { core } => {
                if let Ok(core) = Core::try_from(core) {
                    change_each(&mut self.newest, |store| store.acquire(core));
                }
            }
            Ended::Released { core } => change_each(&mut self.newest, |store| store.release(core)),
            _ => {}
        }
    }

    /// Notes a call that has just ended, and says whether it races.
    fn note(&mut self, call: Ended) -> bool
        ensures { (result ≡ table_races call self.old.newest) × (self.new ≡ noted self.old call) }
    {
        let race = self.races(call);
        self.take(call);
        self.ended = self.ended.saturating_add(1);
        if self.first_race == 0 && race {
            self.first_race = self.ended;
        }
        race
    }

    /// The outcome for a protocol's reply: the mark is added where a call ended.
    pub fn mark(&mut self, reply: Reply) -> Outcome
        ensures { (result, self.new) ≡ marked self.old reply }
    {
        match reply {
            Reply::Refused(refusal) => Outcome::Refused(refusal),
            Reply::Waits => Outcome::Waits,
            Reply::Ended(call) => Outcome::Ended {
                call,
                race: self.note(call),
            },
            Reply::Moved => Outcome::Moved,
            Reply::Finished(call) => Outcome::Finished {
                call,
                race: self.note(call),
            },
        }
    }
}
