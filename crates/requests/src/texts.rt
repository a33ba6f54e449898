//! The text that is printed for a list.

use crate::lists::{Base, Buffers};
use bench::{Answer, Fault};
use printing::fault_line;
use protocol::{Refusal, Step};
use races::Outcome;
use report::{byte_digits, decimal_digits, ended_line, last_digits, step_line};
use std::alloc::Global;
use std::io::Write;
use std::{io, iter};

#[derive(Drop)]
pub struct Text {
    bytes: Vec<u8>,
}

impl Text {
    pub fn new(heap: Global) -> Text {
        Text {
            bytes: Vec::new(heap),
        }
    }

    pub fn as_bytes(&self) -> &[u8] {
        self.bytes.as_slice()
    }

    // Pieces, and no `writeln!`: formatted writes made ordinary lists take twice as long.
    /// A line of some pieces, one behind the other.
    fn put(&mut self, pieces: &[&[u8]]) -> io::Result<()> {
        for piece in pieces {
            self.bytes.extend_from_slice(piece)?;
        }
        self.bytes.push(b'\n')?;
        Ok(())
    }

    pub fn line(&mut self, words: &str) -> io::Result<()> {
        self.put(&[words.as_bytes()])
    }

    /// A list's protocol and its number of buffers.
    pub fn heading(&mut self, base: Base, buffers: Buffers) -> io::Result<()> {
        writeln!(self.bytes, "list {base} {buffers}")
    }

    /// A word and a number of five digits.
    pub fn counted(&mut self, word: &str, count: usize) -> io::Result<()> {
        let shown = count.min(65535) as u16;
        self.put(&[word.as_bytes(), b" ", &decimal_digits(shown)])
    }

    pub fn fault(&mut self, fault: Fault) -> io::Result<()> {
        self.bytes.write_all(&fault_line(fault))
    }

    pub fn ran(&mut self, answer: Result<(), Fault>) -> io::Result<()> {
        match answer {
            Ok(()) => self.line("run done"),
            Err(fault) => self.fault(fault),
        }
    }

    pub fn settled(&mut self, moves: usize, open: bool) -> io::Result<()> {
        let shown = moves.min(65535) as u16;
        let state = if open { *b" open" } else { *b" shut" };
        self.put(&[b"settle ", &decimal_digits(shown), &state])
    }

    pub fn image(&mut self, answer: Result<u8, Refusal>) -> io::Result<()> {
        match answer {
            Ok(byte) => self.put(&[b"image ", &byte_digits(byte)]),
            Err(refusal) => {
                let number = u16::from(u8::from(refusal));
                self.put(&[b"image refused ", &last_digits::<2>(number)])
            }
        }
    }

    pub fn next_open(&mut self, answer: Option<u8>) -> io::Result<()> {
        match answer {
            Some(place) => self.counted("next", usize::from(place)),
            None => self.line("next none"),
        }
    }

    pub fn counts(&mut self, ended: u16, first_race: u16) -> io::Result<()> {
        self.bytes.write_all(&ended_line(ended, first_race))
    }

    pub fn outcome(&mut self, step: Step, outcome: Outcome) -> io::Result<()> {
        self.bytes.write_all(&step_line(step, outcome))
    }

    /// The outcomes of a list, each with the step of its position; past those, a move.
    pub fn outcomes(&mut self, steps: &[Step], outcomes: &[Outcome]) -> io::Result<()> {
        let past = iter::repeat(Step::Move { place: 0 });
        for (outcome, step) in outcomes.iter().zip(steps.iter().copied().chain(past)) {
            self.outcome(step, *outcome)?;
        }
        Ok(())
    }

    /// The answer of a whole study to one request.
    pub fn answer(&mut self, answer: Answer) -> io::Result<()> {
        match answer {
            Answer::Stepped(outcome) => self.outcome(Step::Move { place: 0 }, outcome),
            Answer::Ran(result) => self.ran(result),
            Answer::Settled { moves, open } => self.settled(moves, open),
            Answer::Imaged(result) => self.image(result),
            Answer::Found(place) => self.next_open(place),
        }
    }

    /// A buffer, two digits for each byte.
    pub fn buffer(&mut self, buffer: &[u8]) -> io::Result<()> {
        // No `{byte:02x}`: a formatted write for each byte made lists with buffers twice as slow and more.
        for byte in buffer {
            self.bytes.extend_from_slice(&byte_digits(*byte))?;
        }
        self.line("")
    }
}
