//! The writer: it fills the start of a buffer with the file of a code and steps.

ghost use Rattle.std.specs.Prelude.{◌≡◌, ◌+◌, ◌≤◌, length};
ghost use Rattle.std.specs.List.{flat_map};
ghost use Rattle.study_file.specs.Codes.{fields_of};
ghost use Rattle.study_file.specs.Plans.{most_steps};
ghost use Rattle.study_file.specs.Files.{bytes_of, record_of, step_record};
ghost use Rattle.study_file.specs.Writer.{with_bytes, write_file};
ghost use Rattle.study_file.specs.Laws.{ReadsBack};

use crate::codes::{Code, Kind};
use crate::plans::MOST_STEPS;
use bench::{Cause, Fault, Layer};
use protocol::Step;

/// How many bytes a record of a kind has.
fn record_length(kind: Kind) -> usize
    ensures { result ≡ 4 + fields_of kind }
{
    4 + kind.fields()
}

/// How many bytes the file of some steps has.
fn file_length(steps: &[Step]) -> usize
    requires { length steps.now ≤ most_steps }
    ensures { result ≡ 5 + length (flat_map step_record steps.now) }
{
    let records = steps.iter().map(|&step| record_length(Kind::from(step)));
    record_length(Kind::Protocol) + records.sum::<usize>()
}

/// A number as two bytes, the low one first.
// A function of its own: of a `u16` argument a proof knows that the high byte is the number divided by 256.
fn two_bytes(n: u16) -> [u8; 2]
    ensures { result ≡ bytes_of n }
{
    n.to_le_bytes()
}

// By the place in the buffer, and no `Page`: with that, which asks at each piece whether there is room, a file took twice as long to write.

/// Writes some bytes from a place on, and answers the place behind them.
fn put(buffer: &mut [u8], at: usize, bytes: &[u8]) -> usize
    requires { at + length bytes.now ≤ length buffer.old }
    ensures place { result ≡ at + length bytes.now }
    ensures buffer { buffer.new ≡ with_bytes buffer.old at bytes.now }
{
    let end = at + bytes.len();
    buffer[at..end].copy_from_slice(bytes);
    end
}

/// Writes a record from a place on, and answers the place behind it.
fn put_record(buffer: &mut [u8], at: usize, kind: Kind, fields: &[u8]) -> usize
    requires fields { length fields.now ≡ fields_of kind }
    requires room { at + (4 + fields_of kind) ≤ length buffer.old }
    ensures place { result ≡ at + (4 + fields_of kind) }
    ensures buffer { buffer.new ≡ with_bytes buffer.old at (record_of kind fields.now) }
{
    let at = put(buffer, at, &two_bytes(2 + fields.len() as u16));
    let at = put(buffer, at, &two_bytes(u16::from(kind)));
    put(buffer, at, fields)
}

/// Writes the record of a step from a place on, and answers the place behind it.
// A match, and no table of closures: each kind of step has fields of its own.
fn put_step(buffer: &mut [u8], at: usize, step: Step) -> usize
    requires { at + length (step_record step) ≤ length buffer.old }
    ensures place { result ≡ at + length (step_record step) }
    ensures buffer { buffer.new ≡ with_bytes buffer.old at (step_record step) }
{
    match step {
        Step::Load { core, address } => put_record(buffer, at, Kind::Load, &[core, address]),
        Step::Store {
            core,
            address,
            byte,
        } => put_record(buffer, at, Kind::Store, &[core, address, byte]),
        Step::Acquire { core } => put_record(buffer, at, Kind::Acquire, &[core]),
        Step::Release { core } => put_record(buffer, at, Kind::Release, &[core]),
        Step::Evict { core, line } => put_record(buffer, at, Kind::Evict, &[core, line]),
        Step::Move { place } => put_record(buffer, at, Kind::Move, &[place]),
    }
}

/// Writes the records of steps from a place on, and answers the place behind them.
fn put_steps(buffer: &mut [u8], start: usize, steps: &[Step]) -> usize
    requires { start + length (flat_map step_record steps.now) ≤ length buffer.old }
    ensures place { result ≡ start + length (flat_map step_record steps.now) }
    ensures buffer { buffer.new ≡ with_bytes buffer.old start (flat_map step_record steps.now) }
{
    let mut at = start;
    for step in steps {
        at = put_step(buffer, at, *step);
    }
    at
}

/// Writes the file of a protocol and steps at the start of a buffer, and answers its length.
pub fn write(code: u8, steps: &[Step], buffer: &mut [u8]) -> Result<usize, Fault>
    ensures writes { (result, buffer.new) ≡ write_file code steps.now buffer.old }
    ensures reads_back { ReadsBack code steps.now result buffer.new }
{
    let code = Code::try_from(code).map_err(|cause| Layer::Caller.fault(cause, 0))?;
    if steps.len() > MOST_STEPS {
        return Err(Layer::Caller.fault(Cause::TooLong, 0));
    }
    if buffer.len() < file_length(steps) {
        return Err(Layer::Caller.fault(Cause::OutputTooShort, 0));
    }
    let at = put_record(buffer, 0, Kind::Protocol, &[u8::from(code)]);
    Ok(put_steps(buffer, at, steps))
}
