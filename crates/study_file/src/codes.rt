//! The codes of protocols and the kinds of records, each with its number.

ghost use Rattle.std.specs.Prelude.{◌≡◌, ok_or};
ghost use Rattle.bench.specs.declared.faults.Cause.TheVariants.{UnknownKind, UnknownCode};
ghost use Rattle.study_file.specs.Codes.{code_number, code_named, kind_number, kind_named, fields_of};
ghost use Rattle.study_file.specs.Files.{kind_of};

use bench::Cause;
use protocol::Step;

/// The protocol that a study runs under.
#[derive(Clone, Copy, PartialEq, Eq, Debug)]
pub enum Code {
    Neat = 1,
    Mesi = 2,
    /// A store buffer over Neat.
    BufferedNeat = 3,
    /// A store buffer over MESI.
    BufferedMesi = 4,
}

/// What a record holds.
#[derive(Clone, Copy, PartialEq, Eq, Debug)]
pub enum Kind {
    Protocol = 1,
    Load = 2,
    Store = 3,
    Acquire = 4,
    Release = 5,
    Evict = 6,
    Move = 7,
}

/// The number by which a file names a protocol.
impl From<Code> for u8 {
    ghost from_gives = { λ code n. n ≡ code_number code };

    fn from(code: Code) -> u8 {
        code as u8
    }
}

/// The protocol of a number.
impl TryFrom<u8> for Code {
    type Error = Cause;

    ghost try_from_gives = { λ n r. r ≡ ok_or (code_named n) UnknownCode };

    fn try_from(number: u8) -> Result<Code, Cause> {
        match number {
            1 => Ok(Code::Neat),
            2 => Ok(Code::Mesi),
            3 => Ok(Code::BufferedNeat),
            4 => Ok(Code::BufferedMesi),
            _ => Err(Cause::UnknownCode),
        }
    }
}

/// The number by which a record names its kind.
impl From<Kind> for u16 {
    ghost from_gives = { λ kind n. n ≡ kind_number kind };

    fn from(kind: Kind) -> u16 {
        kind as u16
    }
}

/// The kind of a number.
impl TryFrom<u16> for Kind {
    type Error = Cause;

    ghost try_from_gives = { λ n r. r ≡ ok_or (kind_named n) UnknownKind };

    fn try_from(number: u16) -> Result<Kind, Cause> {
        match number {
            1 => Ok(Kind::Protocol),
            2 => Ok(Kind::Load),
            3 => Ok(Kind::Store),
            4 => Ok(Kind::Acquire),
            5 => Ok(Kind::Release),
            6 => Ok(Kind::Evict),
            7 => Ok(Kind::Move),
            _ => Err(Cause::UnknownKind),
        }
    }
}

/// The kind of the record of a step.
impl From<Step> for Kind {
    ghost from_gives = { λ step kind. kind ≡ kind_of step };

    fn from(step: Step) -> Kind {
        match step {
            Step::Load { .. } => Kind::Load,
            Step::Store { .. } => Kind::Store,
            Step::Acquire { .. } => Kind::Acquire,
            Step::Release { .. } => Kind::Release,
            Step::Evict { .. } => Kind::Evict,
            Step::Move { .. } => Kind::Move,
        }
    }
}

impl Kind {
    /// How many fields a record of that kind has.
    pub fn fields(self) -> usize
        ensures { result ≡ fields_of self }
    {
        match self {
            Kind::Store => 3,
            Kind::Load | Kind::Evict => 2,
            Kind::Protocol | Kind::Acquire | Kind::Release | Kind::Move => 1,
        }
    }
}
