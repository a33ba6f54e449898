//! The line of a step, and the line of the counts.

ghost use Rattle.std.specs.Prelude.{◌≡◌, [], ◌∷◌};
ghost use Rattle.report.specs.Lines.{outcome_letter, shown_call, core_shown, call_letter, byte_of_ended, byte_shown, mark_shown, refusal_shown, step_line, ended_line};
ghost use Rattle.races.specs.Table.{mark_of};

use crate::digits::{byte_digits, decimal_digits};
use crate::page::Page;
use protocol::{Ended, Step};
use races::Outcome;

fn outcome_letter(outcome: Outcome) -> u8
    ensures { result ∷ [] ≡ outcome_letter outcome }
{
    match outcome {
        Outcome::Refused(_) => b'R',
        Outcome::Waits => b'W',
        Outcome::Ended { .. } => b'E',
        Outcome::Moved | Outcome::Finished { .. } => b'M',
    }
}

/// The call that a line shows.
fn shown_call(step: Step, outcome: Outcome) -> Option<Step>
    ensures { result ≡ shown_call step outcome }
{
    match outcome {
        Outcome::Refused(_) | Outcome::Waits => Some(step),
        Outcome::Ended { call, .. } | Outcome::Finished { call, .. } => Some(Step::from(call)),
        Outcome::Moved => None,
    }
}

fn core_shown(call: Option<Step>) -> u8
    ensures { result ∷ [] ≡ core_shown call }
{
    match call.and_then(Step::core) {
        Some(core) if core < 8 => b'0' + core,
        _ => b'-',
    }
}

fn call_letter(call: Option<Step>) -> u8
    ensures { result ∷ [] ≡ call_letter call }
{
    match call {
        None | Some(Step::Move { .. }) => b'-',
        Some(Step::Load { .. }) => b'L',
        Some(Step::Store { .. }) => b'S',
        Some(Step::Acquire { .. }) => b'A',
        Some(Step::Release { .. }) => b'P',
        Some(Step::Evict { .. }) => b'X',
    }
}

fn byte_of_ended(call: Ended) -> [u8; 2]
    ensures { result ≡ byte_of_ended call }
{
    match call {
        Ended::Loaded { byte, .. } | Ended::Stored { byte, .. } => byte_digits(byte),
        _ => *b"--",
    }
}

fn byte_shown(outcome: Outcome) -> [u8; 2]
    ensures { result ≡ byte_shown outcome }
{
    match outcome {
        Outcome::Ended { call, .. } | Outcome::Finished { call, .. } => byte_of_ended(call),
        _ => *b"--",
    }
}

fn mark_shown(outcome: Outcome) -> u8
    ensures { result ∷ [] ≡ mark_shown (mark_of outcome) }
{
    match outcome {
        Outcome::Ended { race: true, .. } | Outcome::Finished { race: true, .. } => b'!',
        _ => b'.',
    }
}

fn refusal_shown(outcome: Outcome) -> [u8; 2]
    ensures { result ≡ refusal_shown outcome }
{
    match outcome {
        // A refusal has one digit: with the loop of `last_digits` here, the line of a refused step took four fifths longer.
        Outcome::Refused(refusal) => [b'0', b'0' + u8::from(refusal)],
        _ => *b"00",
    }
}

/// The line of a step, with its line end.
pub fn step_line(step: Step, outcome: Outcome) -> [u8; 14]
    ensures { result ≡ step_line step outcome }
{
    // An array, and no `Page` and no `Display`: every piece is one byte or two, so the line stands here as it is read, and what is answered
    // is an array. A formatted write into one answers a `Result`, which would be taken apart again.
    let call = shown_call(step, outcome);
    let [high, low] = byte_shown(outcome);
    let [tens, units] = refusal_shown(outcome);
    [
        outcome_letter(outcome),
        b' ',
        core_shown(call),
        b' ',
        call_letter(call),
        b' ',
        high,
        low,
        b' ',
        mark_shown(outcome),
        b' ',
        tens,
        units,
        b'\n',
    ]
}

/// The line of the counts, with its line end.
// Piece by piece, as the lines of faults and of the protocol in the crates above: each has other pieces, and a function over a list of
// pieces would leave as many lines, and slices of slices.
pub fn ended_line(ended: u16, race: u16) -> [u8; 23]
    ensures { result ≡ ended_line ended race }
{
    let mut line = [0; 23];
    let mut page = Page::new(&mut line);
    page.put(b"ended ");
    page.put(&decimal_digits(ended));
    page.put(b" race ");
    page.put(&decimal_digits(race));
    page.put(b"\n");
    line
}
