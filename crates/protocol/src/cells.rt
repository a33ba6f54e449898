//! Cores, addresses, lines and offsets that are known to be in range.

ghost use Rattle.std.specs.Prelude.{◌≡◌, ◌/◌, ◌%◌, ◌<◌, IfOk};
ghost use Rattle.protocol.specs.Cells.{core_named, address_named, line_named, line_of, offset_of, numbered, named_below};

use crate::steps::Refusal;

// Tables over them are arrays in every protocol, and what a caller is answered goes into lists of its own: a step, a run or a report
// allocates nothing.

/// How many cores there are.
const CORES: u8 = 8;

/// How many addresses.
const ADDRESSES: u8 = 64;

/// How many lines.
const LINES: u8 = 8;

// Core, Address, Line and Offset are four structs and not one generic struct over a kind: that needs a trait, four types that name the
// kinds, an `impl` for each, and `Clone` by hand, as none is derived over a ghost field with a parameter.

/// A core, 0 to 7.
#[derive(Clone, Copy, PartialEq, Eq, Debug)]
pub struct Core {
    number: u8,
    ghost in_range: { number < 8 },
}

/// An address, 0 to 63, of one byte.
#[derive(Clone, Copy, PartialEq, Eq, Debug)]
pub struct Address {
    number: u8,
    ghost in_range: { number < 64 },
}

/// A line, 0 to 7, of eight bytes.
#[derive(Clone, Copy, PartialEq, Eq, Debug)]
pub struct Line {
    number: u8,
    ghost in_range: { number < 8 },
}

/// A byte's place in its line, 0 to 7.
#[derive(Clone, Copy, PartialEq, Eq, Debug)]
pub struct Offset {
    number: u8,
    ghost in_range: { number < 8 },
}

/// The number, or the refusal of one that is not below the limit.
fn below(limit: u8, number: u8, refusal: Refusal) -> Result<u8, Refusal>
    ensures value { result ≡ named_below limit refusal number }
    ensures in_range { IfOk result (λ n. n < limit) }
{
    if number < limit {
        Ok(number)
    } else {
        Err(refusal)
    }
}

impl TryFrom<u8> for Core {
    type Error = Refusal;

    ghost try_from_gives = { λ n r. numbered (λ x. x.number) r ≡ core_named n };

    /// The core of that number, or the refusal of a number above 7.
    fn try_from(number: u8) -> Result<Core, Refusal> {
        let number = below(CORES, number, Refusal::NoSuchCore)?;
        Ok(Core { number })
    }
}

impl TryFrom<u8> for Address {
    type Error = Refusal;

    ghost try_from_gives = { λ n r. numbered (λ x. x.number) r ≡ address_named n };

    /// The address of that number, or the refusal of a number above 63.
    fn try_from(number: u8) -> Result<Address, Refusal> {
        let number = below(ADDRESSES, number, Refusal::NoSuchAddress)?;
        Ok(Address { number })
    }
}

impl TryFrom<u8> for Line {
    type Error = Refusal;

    ghost try_from_gives = { λ n r. numbered (λ x. x.number) r ≡ line_named n };

    /// The line of that number, or the refusal of a number above 7.
    fn try_from(number: u8) -> Result<Line, Refusal> {
        let number = below(LINES, number, Refusal::NoSuchAddress)?;
        Ok(Line { number })
    }
}

impl From<Core> for u8 {
    ghost from_gives = { λ core n. n ≡ core.number };

    fn from(core: Core) -> u8 {
        core.number
    }
}

impl From<Address> for u8 {
    ghost from_gives = { λ address n. n ≡ address.number };

    fn from(address: Address) -> u8 {
        address.number
    }
}

impl From<Line> for u8 {
    ghost from_gives = { λ line n. n ≡ line.number };

    fn from(line: Line) -> u8 {
        line.number
    }
}

impl Core {
    /// The core's index in a table of cores.
    pub fn index(self) -> usize
        ensures { result ≡ self.number }
    {
        let core = self.number;
        core as usize
    }
}

impl Address {
    /// The line that the address lies in.
    pub fn line(self) -> Line
        ensures { result.number ≡ line_of self.number }
    {
        Line {
            number: self.number / 8,
        }
    }

    /// The address's place in its line.
    pub fn offset(self) -> Offset
        ensures { result.number ≡ offset_of self.number }
    {
        Offset {
            number: self.number % 8,
        }
    }
}

impl Line {
    /// The line's index in a table of lines.
    pub fn index(self) -> usize
        ensures { result ≡ self.number }
    {
        let line = self.number;
        line as usize
    }
}

impl Offset {
    /// The byte's index in its line.
    pub fn index(self) -> usize
        ensures { result ≡ self.number }
    {
        let offset = self.number;
        offset as usize
    }
}
