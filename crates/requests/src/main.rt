//! Makes the lists of requests on standard input, and prints what each request comes to.
#![tactic(auto)]

mod lists;
mod stops;
mod texts;

use bench::{Answer, Bench};
use lists::{Base, Buffers, Lists, Part, Request, Requests, Rest};
use mesi::Mesi;
use neat::Neat;
use protocol::{Ended, Protocol, Step};
use races::Outcome;
use std::alloc::{AllocError, Global};
use std::io;
use std::io::{Read, Write};
use stops::Stop;
use store_buffer::{StoreBuffer, stacked};
use study_file::{Failure, write};
use study_run::run_file;
use texts::Text;

/// What no step comes to. It fills every list of outcomes that is handed in, so that what a call leaves alone can be seen.
const UNTOUCHED: Outcome = Outcome::Ended {
    call: Ended::Evicted {
        core: 255,
        line: 255,
    },
    race: true,
};

/// What fills every buffer that is handed in.
const POISON: u8 = 0xee;

/// What a part of a whole study asks of a bench, over the steps of that study.
fn asked(part: Part, steps: &[Step]) -> bench::Request<'_> {
    match part {
        Part::Step { at } => bench::Request::Step(
            steps
                .get(usize::from(at))
                .copied()
                .unwrap_or(Step::Move { place: 255 }),
        ),
        Part::Run { from, count, room } => {
            let steps = &steps[steps.len().min(usize::from(from))..];
            bench::Request::Run {
                steps: &steps[..steps.len().min(usize::from(count))],
                room: usize::from(room),
            }
        }
        Part::Settle { room } => bench::Request::Settle {
            room: usize::from(room),
        },
        Part::Image { address } => bench::Request::Image { address },
        Part::NextOpen { place } => bench::Request::NextOpen { place },
    }
}

/// A bench that the requests of a list are made on, and the text of what they come to.
#[derive(Drop)]
struct Desk<'a, P> {
    heap: Global,
    bench: Bench<P>,
    text: &'a mut Text,
}

impl<P: Protocol> Desk<'_, P> {
    /// A run of some steps.
    fn run(&mut self, steps: &[Step], room: u8) -> io::Result<()> {
        let mut outcomes = vec![in self.heap; UNTOUCHED; usize::from(room)]?;
        let answer = self.bench.run(steps, &mut outcomes);
        self.text.ran(answer)?;
        self.text.outcomes(steps, outcomes.as_slice())
    }

    /// A settle.
    fn settle(&mut self, room: u8) -> io::Result<()> {
        let mut outcomes = vec![in self.heap; UNTOUCHED; usize::from(room)]?;
        let (moves, open) = self.bench.settle(&mut outcomes);
        self.text.settled(moves, open)?;
        self.text.outcomes(&[], outcomes.as_slice())
    }

    /// A file that is written.
    fn write(&mut self, code: u8, room: u16, steps: &[Step]) -> io::Result<()> {
        let mut buffer = vec![in self.heap; POISON; usize::from(room)]?;
        match write(code, steps, &mut buffer) {
            Ok(length) => self.text.counted("wrote", length)?,
            Err(fault) => self.text.fault(fault)?,
        }
        self.text.buffer(buffer.as_slice())
    }

    /// A study file that is run.
    fn report(&mut self, room: u16, file: &[u8]) -> io::Result<()> {
        let mut buffer = vec![in self.heap; POISON; usize::from(room)]?;
        match run_file(self.heap, file, &mut buffer) {
            Ok(length) => self.text.counted("report", length)?,
            Err(Failure::Fault(fault)) => self.text.fault(fault)?,
            Err(Failure::OutOfMemory) => return Err(io::Error::from(AllocError)),
        }
        self.text.buffer(buffer.as_slice())
    }

    /// A whole study, in one call.
    fn study(&mut self, steps: &[Step], parts: &[Part], answers: u8, room: u8) -> io::Result<()> {
        let requests = parts
            .iter()
            .map(|part| asked(*part, steps))
            .collect::<Vec<_>>(self.heap)?;
        let mut answers = vec![in self.heap; Answer::Found(Some(255)); usize::from(answers)]?;
        let mut outcomes = vec![in self.heap; UNTOUCHED; usize::from(room)]?;
        let made = self
            .bench
            .study(requests.as_slice(), &mut answers, &mut outcomes);
        match made {
            Ok(count) => self.text.counted("study", count)?,
            Err(fault) => self.text.fault(fault)?,
        }
        for answer in answers.as_slice() {
            self.text.answer(*answer)?;
        }
        self.text.outcomes(&[], outcomes.as_slice())
    }

    /// One request.
    fn make(&mut self, request: Request) -> io::Result<()> {
        match request {
            Request::Step(step) => self.text.outcome(step, self.bench.step(step)),
            Request::Run { steps, room } => self.run(steps.as_slice(), room),
            Request::Settle { room } => self.settle(room),
            Request::Image { address } => self.text.image(self.bench.image(address)),
            Request::NextOpen { place } => self.text.next_open(self.bench.next_open(place)),
            Request::Counts => self
                .text
                .counts(self.bench.ended(), self.bench.first_race()),
            Request::SetUp => {
                self.bench.set_up();
                self.text.line("set up")
            }
            Request::Write { code, room, steps } => self.write(code, room, steps.as_slice()),
            Request::Report { room, file } => self.report(room, file),
            Request::Study {
                steps,
                parts,
                answers,
                room,
            } => self.study(steps.as_slice(), parts.as_slice(), answers, room),
        }
    }
}

/// The most lists that are made of an input, and the most requests of a list.
const MOST_MADE: usize = 16_777_216;

/// All requests of a list, over a protocol.
fn make_all<P: Protocol + Drop>(
    heap: Global,
    protocol: P,
    requests: Requests,
    text: &mut Text,
) -> Result<(), Stop> {
    let mut desk = Desk {
        heap,
        bench: Bench::new(protocol),
        text,
    };
    for request in requests.take(MOST_MADE) {
        desk.make(request?)?;
    }
    Ok(())
}

/// A list, over the protocol that it names.
fn make(heap: Global, list: &[u8], text: &mut Text) -> Result<(), Stop> {
    let mut rest = Rest::new(list);
    let base = Base::try_from(rest.byte()?)?;
    let buffers = Buffers::try_from(rest.byte()?)?;
    text.heading(base, buffers)?;
    let requests = Requests::new(heap, rest);
    // One arm for each, since each protocol is a type of its own.
    match (base, buffers) {
        (Base::Neat, Buffers::Zero) => make_all(heap, Neat::new(), requests, text),
        (Base::Mesi, Buffers::Zero) => make_all(heap, Mesi::new(), requests, text),
        (Base::Neat, Buffers::One) => {
            make_all(heap, StoreBuffer::new(Neat::new()), requests, text)
        }
        (Base::Mesi, Buffers::One) => {
            make_all(heap, StoreBuffer::new(Mesi::new()), requests, text)
        }
        (Base::Neat, Buffers::Two) => make_all(heap, stacked(Neat::new()), requests, text),
        (Base::Mesi, Buffers::Two) => make_all(heap, stacked(Mesi::new()), requests, text),
    }
}

/// The text of a list. Nothing can be wanting for it but memory.
fn text_of(heap: Global, list: &[u8]) -> Result<Text, AllocError> {
    let mut text = Text::new(heap);
    let made = match make(heap, list, &mut text) {
        Err(Stop::Broken) => text.line("broken"),
        Err(Stop::Io(error)) => Err(error),
        Ok(()) => Ok(()),
    };
    made.map_err(|_| AllocError)?;
    Ok(text)
}

fn answer(rt: &HostRuntime) -> anyhow::Result<()> {
    let mut input = Vec::new(rt.alloc());
    rt.stdin().read_to_end(&mut input)?;
    for list in Lists::new(input.as_slice()).take(MOST_MADE) {
        match list {
            Ok(list) => rt
                .stdout()
                .write_all(text_of(rt.alloc(), list)?.as_bytes())?,
            Err(_) => rt.stdout().write_all(b"broken\n")?,
        }
    }
    Ok(())
}

fn main(rt: HostRuntime) -> anyhow::Result<()> {
    answer(&rt)
}
