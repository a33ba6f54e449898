//! Whole studies: any list of requests, from a set-up on.

ghost use Rattle.std.specs.Prelude.{◌≡◌, ◌≤◌, false, length, is_ok, nat_le};
ghost use Rattle.bench.specs.Benches.{AnswersRequest, MakesStudy};
ghost use Rattle.bench.specs.Requests.{room_of, rooms_of};

use crate::benches::Bench;
use crate::faults::{Cause, Fault, Layer};
use crate::requests::{Answer, Request};
use protocol::Protocol;
use races::Outcome;

impl Request<'_> {
    /// How many outcomes the request may want.
    fn room(self) -> usize
        ensures { result ≡ room_of self.entry }
    {
        match self {
            Request::Run { room, .. } | Request::Settle { room } => room,
            _ => 0,
        }
    }
}

/// Whether some outcomes are room enough for the requests.
fn fit(requests: &[Request], outcomes: usize) -> bool
    ensures { result ≡ nat_le (rooms_of requests.now) outcomes }
{
    requests
        .iter()
        .try_fold(outcomes, |left, request| left.checked_sub(request.room()))
        .is_some()
}

impl<P: Protocol> Bench<P> {
    /// Answers one request in the room that it wants, and writes its outcomes at the start of that. Answers too how many those are.
    fn answer(&mut self, request: Request, outcomes: &mut [Outcome]) -> (Answer, usize)
        requires { length outcomes.old ≡ room_of request }
        ensures { AnswersRequest P.machine P.state self.old request.entry outcomes.old result self.new outcomes.new }
    {
        match request {
            Request::Step(step) => (Answer::Stepped(self.step(step)), 0),
            Request::Run { steps, .. } => match self.run(steps, outcomes) {
                Ok(()) => (Answer::Ran(Ok(())), steps.len()),
                Err(fault) => (Answer::Ran(Err(fault)), 0),
            },
            Request::Settle { .. } => {
                let (moves, open) = self.settle(outcomes);
                (Answer::Settled { moves, open }, moves)
            }
            Request::Image { address } => (Answer::Imaged(self.image(address)), 0),
            Request::NextOpen { place } => (Answer::Found(self.next_open(place)), 0),
        }
    }

    /// Makes a whole study: sets the bench up, and answers each request in order. Answers how many outcomes were written.
    pub fn study(
        &mut self,
        requests: &[Request],
        answers: &mut [Answer],
        outcomes: &mut [Outcome],
    ) -> Result<usize, Fault>
        ensures made { MakesStudy P.machine P.state requests.now answers.old outcomes.old result self.new answers.new outcomes.new }
        ensures untouched { is_ok result ≡ false → self.new ≡ self.old }
    {
        if answers.len() < requests.len() || !fit(requests, outcomes.len()) {
            return Err(Layer::Caller.fault(Cause::TooFewOutcomes, 0));
        }
        self.set_up();
        // Where the outcomes written so far end: only each answer says how far that moves on.
        let mut at = 0;
        // By the index, and no `zip` with `iter_mut`: of what its loop writes, the proof learns nothing.
        for (index, request) in requests.iter().enumerate() {
            let end = at + request.room();
            let (answer, written) = self.answer(*request, &mut outcomes[at..end]);
            answers[index] = answer;
            at += written;
        }
        Ok(at)
    }
}
