//! Lists of steps, and settling.

ghost use Rattle.std.specs.Prelude.{◌≡◌, false, is_ok};
ghost use Rattle.bench.specs.Benches.{MakesRun, Settles};

use crate::benches::Bench;
use crate::faults::{Cause, Fault, Layer};
use protocol::{Protocol, Step};
use races::Outcome;

impl<P: Protocol> Bench<P> {
    /// Takes the steps in order and writes the outcome of each.
    pub fn run(&mut self, steps: &[Step], outcomes: &mut [Outcome]) -> Result<(), Fault>
        ensures made { MakesRun P.machine P.state self.old steps.now outcomes.old result self.new outcomes.new }
        ensures untouched { is_ok result ≡ false → self.new ≡ self.old }
    {
        if outcomes.len() < steps.len() {
            return Err(Layer::Caller.fault(Cause::TooFewOutcomes, 0));
        }
        // By the index, and no `zip` with `iter_mut`: of what its loop writes, the proof learns nothing.
        for (index, step) in steps.iter().enumerate() {
            self.step_into(*step, &mut outcomes[index]);
        }
        Ok(())
    }

    /// Moves the first open place until none is open or the outcomes are full. Answers how many moves were made, and whether a place
    /// is still open.
    // A pair, and no `Option`: a settling may fill its room and still leave a place open, or do either alone.
    pub fn settle(&mut self, outcomes: &mut [Outcome]) -> (usize, bool)
        ensures { Settles P.machine P.state self.old outcomes.old result self.new outcomes.new }
    {
        for (moves, outcome) in outcomes.iter_mut().enumerate() {
            let Some(place) = self.next_open(0) else {
                return (moves, false);
            };
            self.step_into(Step::Move { place }, outcome);
        }
        (outcomes.len(), self.next_open(0).is_some())
    }
}
