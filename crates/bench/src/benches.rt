//! The bench and its steps.

ghost use Rattle.std.specs.Prelude.{◌≡◌, ◌<◌, false};
ghost use Rattle.protocol.specs.Meaning.{FirstOpen, image_of};
ghost use Rattle.protocol.specs.Steps.{Fit};
ghost use Rattle.protocol.specs.declared.steps.Step.TheVariants.{Load, Store, Acquire, Release, Evict, Move};
ghost use Rattle.races.specs.Log.{Log, empty_log};
ghost use Rattle.races.specs.Guarantee.{ImageAnswers};
ghost use Rattle.races.specs.Races.{number, first_race, newest, any_race};
ghost use Rattle.races.specs.Table.{start};

use protocol::{Protocol, Refusal, Reply, Step};
use races::{Outcome, RaceTable};

/// One protocol of any kind, and the races of the study that it is in.
// No `impl Model`: its `Value` would be the protocol's state with the table, and a `Value` cannot name a bound's member, as `P.machine`.
#[derive(Drop)]
pub struct Bench<P> {
    protocol: P,
    races: RaceTable,
}

/// Puts a step to the protocol.
// A `match`, and no table of closures: each kind of step has fields of its own.
fn ask<P: Protocol>(protocol: &mut P, step: Step) -> Reply
    ensures { (Fit step) × (P.machine.steps (P.state protocol.old) step result (P.state protocol.new)) }
{
    match step {
        Step::Load { core, address } => protocol.load(core, address),
        Step::Store {
            core,
            address,
            byte,
        } => protocol.store(core, address, byte),
        Step::Acquire { core } => protocol.acquire(core),
        Step::Release { core } => protocol.release(core),
        Step::Evict { core, line } => protocol.evict(core, line),
        Step::Move { place } => protocol.move_message(place),
    }
}

impl<P: Protocol> Bench<P> {
    ghost use Rattle.bench.specs.Benches.{moment_of, InStudy, Steps};

    /// Sets a bench up over a protocol, in whatever state that is.
    pub fn new(protocol: P) -> Bench<P>
        ensures fresh { P.machine.fresh (P.state result.protocol) }
        ensures table { result.races ≡ start }
        ensures begins { InStudy P.machine P.state result empty_log }
    {
        let mut bench = Bench {
            protocol,
            races: RaceTable::new(),
        };
        bench.set_up();
        bench
    }

    /// Sets the bench up again: the protocol is cleared, and a new study begins.
    pub fn set_up(&mut self)
        ensures fresh { P.machine.fresh (P.state self.new.protocol) }
        ensures table { self.new.races ≡ start }
        ensures begins { InStudy P.machine P.state self.new empty_log }
    {
        self.protocol.clear();
        self.races = RaceTable::new();
    }

    /// Takes one step and writes its outcome: the protocol's answer, with the race mark.
    pub(crate) fn step_into(&mut self, step: Step, outcome: &mut Outcome)
        ensures { Steps P.machine P.state self.old step outcome.new self.new }
    {
        let reply = ask(&mut self.protocol, step);
        *outcome = self.races.mark(reply);
    }

    /// Takes one step: the protocol's answer, with the race mark.
    pub fn step(&mut self, step: Step) -> Outcome
        ensures { Steps P.machine P.state self.old step result self.new }
    {
        let mut outcome = Outcome::Waits;
        self.step_into(step, &mut outcome);
        outcome
    }

    pub fn load(&mut self, core: u8, address: u8) -> Outcome
        ensures { Steps P.machine P.state self.old (Load core address) result self.new }
    {
        self.step(Step::Load { core, address })
    }

    pub fn store(&mut self, core: u8, address: u8, byte: u8) -> Outcome
        ensures { Steps P.machine P.state self.old (Store core address byte) result self.new }
    {
        self.step(Step::Store {
            core,
            address,
            byte,
        })
    }

    pub fn acquire(&mut self, core: u8) -> Outcome
        ensures { Steps P.machine P.state self.old (Acquire core) result self.new }
    {
        self.step(Step::Acquire { core })
    }

    pub fn release(&mut self, core: u8) -> Outcome
        ensures { Steps P.machine P.state self.old (Release core) result self.new }
    {
        self.step(Step::Release { core })
    }

    pub fn evict(&mut self, core: u8, line: u8) -> Outcome
        ensures { Steps P.machine P.state self.old (Evict core line) result self.new }
    {
        self.step(Step::Evict { core, line })
    }

    /// Moves the message at a place.
    pub fn move_message(&mut self, place: u8) -> Outcome
        ensures { Steps P.machine P.state self.old (Move place) result self.new }
    {
        self.step(Step::Move { place })
    }

    /// How many core calls have ended, at most 65,535.
    pub fn ended(&self) -> u16
        ensures value { result ≡ self.now.races.ended }
        ensures counts { (log : Log) → InStudy P.machine P.state self.now log → result ≡ number log.ended }
    {
        self.races.ended
    }

    /// The number of the first race, or 0.
    pub fn first_race(&self) -> u16
        ensures value { result ≡ self.now.races.first_race }
        ensures counts { (log : Log) → InStudy P.machine P.state self.now log → result ≡ first_race log.ended }
    {
        self.races.first_race
    }

    /// The byte at home of an address.
    pub fn image(&self, address: u8) -> Result<u8, Refusal>
        ensures answers { P.machine.images (P.state self.now.protocol) address result }
        ensures means { (log : Log) → InStudy P.machine P.state self.now log → result ≡ image_of (moment_of P.machine P.state self.now) address }
        ensures right { (log : Log) → InStudy P.machine P.state self.now log → any_race log.ended ≡ false → address < 64 → ImageAnswers result address log.ended (newest address log.ended) }
    {
        self.protocol.image(address)
    }

    /// The first open place at or after a place.
    pub fn next_open(&self, place: u8) -> Option<u8>
        ensures answers { P.machine.opens (P.state self.now.protocol) place result }
        ensures means { (log : Log) → InStudy P.machine P.state self.now log → FirstOpen (moment_of P.machine P.state self.now) place result }
    {
        self.protocol.next_open(place)
    }
}
