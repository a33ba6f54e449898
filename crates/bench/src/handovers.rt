//! A byte that is handed over from one core to another, under any protocol.

ghost use Rattle.std.specs.Prelude.{◌≡◌, length};
ghost use Rattle.protocol.specs.Meaning.{CanWait};
ghost use Rattle.bench.specs.Benches.{AwaitsCall, EndsCall, MakesHandover, HandsByteOver};
ghost use Rattle.bench.specs.Handovers.{first_finished};

use crate::benches::Bench;
use protocol::{Ended, Protocol, Step};
use races::Outcome;

/// The first call that a move has ended, or none.
fn finished(outcomes: &[Outcome]) -> Option<Ended>
    ensures { result ≡ first_finished outcomes.now }
{
    outcomes.iter().find_map(|outcome| match *outcome {
        Outcome::Finished { call, .. } => Some(call),
        _ => None,
    })
}

impl<P: Protocol> Bench<P> {
    /// Makes a core call and, if its core waits, settles. Answers the call once it has ended.
    fn await_call(&mut self, step: Step, outcomes: &mut [Outcome]) -> Option<Ended>
        requires { CanWait step }
        ensures made { AwaitsCall P.machine P.state self.old step outcomes.old result self.new outcomes.new }
        ensures right { EndsCall P.machine P.state self.old step (length outcomes.old) result self.new }
    {
        match self.step(step) {
            Outcome::Ended { call, .. } => Some(call),
            Outcome::Waits => {
                let (moves, _) = self.settle(outcomes);
                finished(&outcomes[..moves])
            }
            _ => None,
        }
    }

    /// Hands a byte over: sets the bench up, lets one core store the byte and release, and then another acquire and load. Each call has
    /// ended before the next. Answers the byte that was loaded.
    pub fn hand_over(
        &mut self,
        from: u8,
        to: u8,
        address: u8,
        byte: u8,
        outcomes: &mut [Outcome],
    ) -> Option<u8>
        ensures made { MakesHandover P.machine P.state from to address byte outcomes.old result self.new outcomes.new }
        ensures right { HandsByteOver P.machine P.state from to address byte (length outcomes.old) result self.new }
    {
        self.set_up();
        let _ = self.await_call(
            Step::Store {
                core: from,
                address,
                byte,
            },
            outcomes,
        )?;
        let _ = self.await_call(Step::Release { core: from }, outcomes)?;
        let _ = self.await_call(Step::Acquire { core: to }, outcomes)?;
        match self.await_call(Step::Load { core: to, address }, outcomes)? {
            Ended::Loaded { byte, .. } => Some(byte),
            _ => None,
        }
    }
}
