//! The plan: the protocol and the steps that a file asks for.

ghost use Rattle.std.specs.Prelude.{◌≡◌, ◌≤◌, length, drop, vec_items};
ghost use Rattle.study_file.specs.Codes.{fields_of};
ghost use Rattle.study_file.specs.Records.{most_bytes, held};
ghost use Rattle.study_file.specs.Plans.{item_of, step_of_fields, code_in, step_in, most_steps, steps_from, read_file, asked, Answers};
ghost use Rattle.study_file.specs.Laws.{Exact, WritesBack};
ghost use Rattle.study_file.specs.declared.plans.Failure.TheVariants.{Fault as HasFault, OutOfMemory};

use crate::codes::{Code, Kind};
use crate::record::Record;
use crate::records::Reader;
use bench::{Cause, Fault, Layer};
use protocol::Step;
use std::alloc::{AllocError, AllocFailed, Global};

/// What a file asks for: a protocol, and steps in order.
#[derive(Drop)]
pub struct Plan {
    pub code: Code,
    pub steps: Vec<Step>,
}

/// Why no plan is made of a file.
#[derive(Clone, Copy, PartialEq, Eq, Debug)]
pub enum Failure {
    Fault(Fault),
    /// There is no memory for the steps.
    OutOfMemory,
}

// No `Result`: neither is a failure of the other. The first record has to be the one, and every later record the other.

/// What a record says: the number of a code, or a step.
#[derive(Clone, Copy)]
enum Item {
    Code(u8),
    Step(Step),
}

/// A plan has at most so many steps.
pub(crate) const MOST_STEPS: usize = 4096;

impl From<Fault> for Failure {
    ghost from_gives = { λ e r. r ≡ HasFault e };

    fn from(fault: Fault) -> Failure {
        Failure::Fault(fault)
    }
}

impl From<AllocError> for Failure {
    ghost from_gives = { λ _ r. r ≡ OutOfMemory };

    fn from(_error: AllocError) -> Failure {
        Failure::OutOfMemory
    }
}

impl<T: Drop> From<AllocFailed<T>> for Failure {
    ghost from_gives = { λ _ r. r ≡ OutOfMemory };

    fn from(_error: AllocFailed<T>) -> Failure {
        Failure::OutOfMemory
    }
}

/// The step of a kind and its fields in order. There is none where a record of that kind has not so many, or names the protocol.
pub fn step_of_fields(kind: Kind, fields: &[u8]) -> Option<Step>
    ensures { result ≡ step_of_fields kind fields.now }
{
    match (kind, fields) {
        (Kind::Load, [core, address]) => Some(Step::Load {
            core: *core,
            address: *address,
        }),
        (Kind::Store, [core, address, byte]) => Some(Step::Store {
            core: *core,
            address: *address,
            byte: *byte,
        }),
        (Kind::Acquire, [core]) => Some(Step::Acquire { core: *core }),
        (Kind::Release, [core]) => Some(Step::Release { core: *core }),
        (Kind::Evict, [core, line]) => Some(Step::Evict {
            core: *core,
            line: *line,
        }),
        (Kind::Move, [place]) => Some(Step::Move { place: *place }),
        _ => None,
    }
}

/// Takes a record apart into its fields.
fn item_of(record: Record<'_>) -> Item
    requires { length «record».body.now ≡ fields_of «record».kind }
    ensures { result ≡ item_of «record».entry.kind «record».entry.body.now }
{
    match (step_of_fields(record.kind, record.body), record.body) {
        (Some(step), _) => Item::Step(step),
        (None, [code]) => Item::Code(*code),
        _ => unreachable!(),
    }
}

/// The code that the first record has to name.
fn code_of(record: Record<'_>) -> Result<Code, Fault>
    requires { length «record».body.now ≡ fields_of «record».kind }
    ensures { result ≡ code_in (held «record».entry) }
{
    match item_of(record) {
        Item::Code(number) => {
            Code::try_from(number).map_err(|cause| Layer::Plan.fault(cause, record.place))
        }
        Item::Step(_) => Err(Layer::Plan.fault(Cause::ProtocolNotFirst, record.place)),
    }
}

/// The step that every later record has to be.
fn step_of(record: Record<'_>) -> Result<Step, Fault>
    requires { length «record».body.now ≡ fields_of «record».kind }
    ensures { result ≡ step_in (held «record».entry) }
{
    match item_of(record) {
        Item::Code(_) => Err(Layer::Plan.fault(Cause::ProtocolNotFirst, record.place)),
        Item::Step(step) => Ok(step),
    }
}

/// The steps from the reader's place on.
fn read_steps(heap: Global, reader: &mut Reader) -> Result<Vec<Step>, Failure>
    requires { length reader.old.file.now ≤ most_bytes }
    ensures { Answers vec_items (steps_from most_steps reader.old.place (drop reader.old.place reader.old.file.now)) result }
{
    let mut steps = Vec::with_capacity(heap, MOST_STEPS)?;
    while let Some(record) = reader.next_record()? {
        let step = step_of(record)?;
        if steps.len() == MOST_STEPS {
            return Err(Failure::Fault(Layer::Reader.fault(Cause::TooLong, record.place)));
        }
        steps.push(step)?;
    }
    Ok(steps)
}

/// The plan of a file.
pub fn read(heap: Global, file: &[u8]) -> Result<Plan, Failure>
    ensures reads { Answers asked (read_file file.now) result }
    ensures exact { Exact file.now }
    ensures writes_back { WritesBack file.now result }
{
    let mut reader = Reader::new(file);
    let Some(first) = reader.next_record()? else {
        return Err(Failure::Fault(Layer::Plan.fault(Cause::ProtocolNotFirst, 0)));
    };
    let code = code_of(first)?;
    let steps = read_steps(heap, &mut reader)?;
    Ok(Plan { code, steps })
}
