//! The bytes of lists, taken one after the other, and the requests that they say.

ghost use Rattle.std.specs.Prelude.{◌≡◌, ◌↔◌, ◌<◌, ◌≤◌, List, ℕ, [], ◌∷◌, length, IsTrue, OnOk, OnErr, IfOk};
ghost use Rattle.std.specs.Iterator.{at_most};
ghost use Rattle.requests.specs.Lists.{base_named, buffers_named};

use crate::stops::Stop;
use protocol::Step;
use std::alloc::Global;
use std::fmt;
use std::marker::Model;
use study_file::{Kind, step_of_fields};

/// What is still to be read of some bytes.
#[derive(Drop)]
pub struct Rest<'a> {
    bytes: &'a [u8],
}

/// The lists of an input, each behind its length as four bytes, the low one first. Where the input ends inside a length or a list, the last
/// one is broken.
#[derive(Drop)]
pub struct Lists<'a> {
    rest: Rest<'a>,
}

/// The requests of a list.
#[derive(Drop)]
pub struct Requests<'a> {
    heap: Global,
    rest: Rest<'a>,
}

/// The protocol at the bottom.
#[derive(Clone, Copy, PartialEq, Eq, Debug)]
pub enum Base {
    Neat,
    Mesi,
}

/// How many store buffers stand over it.
#[derive(Clone, Copy, PartialEq, Eq, Debug)]
pub enum Buffers {
    Zero,
    One,
    Two,
}

/// A request of a list.
#[derive(Drop)]
pub enum Request<'a> {
    Step(Step),
    Run {
        steps: Vec<Step>,
        room: u8,
    },
    Settle {
        room: u8,
    },
    Image {
        address: u8,
    },
    NextOpen {
        place: u8,
    },
    Counts,
    SetUp,
    Write {
        code: u8,
        room: u16,
        steps: Vec<Step>,
    },
    Report {
        room: u16,
        file: &'a [u8],
    },
    Study {
        steps: Vec<Step>,
        parts: Vec<Part>,
        answers: u8,
        room: u8,
    },
}

/// A request of a whole study.
#[derive(Clone, Copy)]
pub enum Part {
    /// The step of that position among the study's.
    Step { at: u8 },
    /// So many steps from a position on.
    Run { from: u8, count: u8, room: u8 },
    Settle { room: u8 },
    Image { address: u8 },
    NextOpen { place: u8 },
}

/// What a list says some of, one behind the other.
trait FromRest: Sized {
    /// The next one.
    fn from_rest(rest: &mut Rest) -> Result<Self, Stop>
        ensures { length rest.new ≤ length rest.old };
}

impl TryFrom<u8> for Base {
    type Error = Stop;

    ghost try_from_gives = { λ number base. base ≡ base_named number };

    fn try_from(number: u8) -> Result<Base, Stop> {
        match number {
            1 => Ok(Base::Neat),
            2 => Ok(Base::Mesi),
            _ => Err(Stop::Broken),
        }
    }
}

impl TryFrom<u8> for Buffers {
    type Error = Stop;

    ghost try_from_gives = { λ number buffers. buffers ≡ buffers_named number };

    fn try_from(number: u8) -> Result<Buffers, Stop> {
        match number {
            0 => Ok(Buffers::Zero),
            1 => Ok(Buffers::One),
            2 => Ok(Buffers::Two),
            _ => Err(Stop::Broken),
        }
    }
}

/// Its number, as a list has it.
impl fmt::Display for Base {
    fn fmt<W: fmt::Write>(&self, f: &mut fmt::Formatter<W>) -> fmt::Result {
        match self {
            Base::Neat => write!(f, "1"),
            Base::Mesi => write!(f, "2"),
        }
    }
}

/// Its number, as a list has it.
impl fmt::Display for Buffers {
    fn fmt<W: fmt::Write>(&self, f: &mut fmt::Formatter<W>) -> fmt::Result {
        match self {
            Buffers::Zero => write!(f, "0"),
            Buffers::One => write!(f, "1"),
            Buffers::Two => write!(f, "2"),
        }
    }
}

impl<'a> Model for Rest<'a> {
    ghost Value = { List ℕ };

    ghost view = { λ r. r.bytes.now };
}

impl<'a> Rest<'a> {
    pub fn new(bytes: &'a [u8]) -> Rest<'a>
        ensures { result ≡ bytes.now }
    {
        Rest { bytes }
    }

    pub fn is_over(&self) -> bool
        ensures { IsTrue result ↔ (self.now ≡ []) }
    {
        self.bytes.is_empty()
    }

    pub fn byte(&mut self) -> Result<u8, Stop>
        ensures byte { IfOk result (λ b. self.old ≡ b ∷ self.new) }
        ensures over { OnErr result ((self.old ≡ []) × (self.new ≡ [])) }
        ensures shorter { OnOk result (length self.new < length self.old) }
        ensures no_longer { length self.new ≤ length self.old }
    {
        self.bytes.split_off_first().copied().ok_or(Stop::Broken)
    }

    /// A number of two bytes, the low one first.
    fn two_bytes(&mut self) -> Result<u16, Stop>
        ensures { length self.new ≤ length self.old }
    {
        Ok(u16::from_le_bytes([self.byte()?, self.byte()?]))
    }

    /// So many bytes.
    fn part(&mut self, count: usize) -> Result<&'a [u8], Stop>
        ensures { length self.new ≤ length self.old }
    {
        self.bytes.split_off(..count).ok_or(Stop::Broken)
    }

    /// A list, behind its length.
    // The corpus of `conformance` has parts like this, in another program: there a part that is cut short ends the corpus, here it is an error.
    fn list(&mut self) -> Result<&'a [u8], Stop>
        ensures { OnOk result (length self.new < length self.old) }
    {
        let (length, rest) = self.bytes.split_first_chunk::<4>().ok_or(Stop::Broken)?;
        self.bytes = rest;
        self.part(u32::from_le_bytes(*length) as usize)
    }

    /// So many items.
    fn items<T: FromRest + Drop>(&mut self, heap: Global, count: u8) -> Result<Vec<T>, Stop>
        ensures { length self.new ≤ length self.old }
    {
        // A loop: after a chain whose closure takes from the rest, no proof knows how much is left.
        let mut items = Vec::with_capacity(heap, usize::from(count))?;
        for _ in 0..count {
            items.push(T::from_rest(self)?)?;
        }
        Ok(items)
    }

    /// A request: the byte that says which it is, and its fields.
    fn request(&mut self, heap: Global) -> Result<Request<'a>, Stop>
        requires { 0 < length self.old }
        ensures { length self.new < length self.old }
    {
        // A number is read where the request that it stands for is made: a kind between them would name each request twice.
        Ok(match self.byte()? {
            1 => Request::Step(Step::from_rest(self)?),
            2 => {
                let (count, room) = (self.byte()?, self.byte()?);
                Request::Run {
                    steps: self.items(heap, count)?,
                    room,
                }
            }
            3 => Request::Settle { room: self.byte()? },
            4 => Request::Image {
                address: self.byte()?,
            },
            5 => Request::NextOpen {
                place: self.byte()?,
            },
            6 => Request::Counts,
            7 => Request::SetUp,
            8 => {
                let (code, room, count) = (self.byte()?, self.two_bytes()?, self.byte()?);
                Request::Write {
                    code,
                    room,
                    steps: self.items(heap, count)?,
                }
            }
            9 => {
                let (room, length) = (self.two_bytes()?, self.two_bytes()?);
                Request::Report {
                    room,
                    file: self.part(usize::from(length))?,
                }
            }
            10 => {
                let count = self.byte()?;
                let steps = self.items(heap, count)?;
                let count = self.byte()?;
                Request::Study {
                    steps,
                    parts: self.items(heap, count)?,
                    answers: self.byte()?,
                    room: self.byte()?,
                }
            }
            _ => return Err(Stop::Broken),
        })
    }
}

impl FromRest for Step {
    fn from_rest(rest: &mut Rest) -> Result<Step, Stop> {
        let kind = Kind::try_from(u16::from(rest.byte()?)).map_err(|_| Stop::Broken)?;
        step_of_fields(kind, rest.part(kind.fields())?).ok_or(Stop::Broken)
    }
}

impl FromRest for Part {
    fn from_rest(rest: &mut Rest) -> Result<Part, Stop> {
        // A number is read where the part that it stands for is made: a kind between them would name each part twice.
        Ok(match rest.byte()? {
            1 => Part::Step { at: rest.byte()? },
            2 => Part::Run {
                from: rest.byte()?,
                count: rest.byte()?,
                room: rest.byte()?,
            },
            3 => Part::Settle { room: rest.byte()? },
            4 => Part::Image {
                address: rest.byte()?,
            },
            5 => Part::NextOpen {
                place: rest.byte()?,
            },
            _ => return Err(Stop::Broken),
        })
    }
}

impl<'a> Lists<'a> {
    pub fn new(bytes: &'a [u8]) -> Lists<'a>
        ensures { result.rest ≡ bytes.now }
    {
        Lists {
            rest: Rest::new(bytes),
        }
    }
}

impl<'a> Iterator for Lists<'a> {
    type Item = Result<&'a [u8], Stop>;

    ghost remaining = { λ s. at_most (length s.rest) };

    fn next(&mut self) -> Option<Result<&'a [u8], Stop>> {
        if self.rest.is_over() {
            return None;
        }
        let list = self.rest.list();
        if list.is_err() {
            self.rest = Rest::new(&[]);
        }
        Some(list)
    }
}

impl<'a> Requests<'a> {
    pub fn new(heap: Global, rest: Rest<'a>) -> Requests<'a>
        ensures { result.rest ≡ rest.entry }
    {
        Requests { heap, rest }
    }
}

impl<'a> Iterator for Requests<'a> {
    type Item = Result<Request<'a>, Stop>;

    ghost remaining = { λ s. at_most (length s.rest) };

    fn next(&mut self) -> Option<Result<Request<'a>, Stop>> {
        if self.rest.is_over() {
            return None;
        }
        Some(self.rest.request(self.heap))
    }
}
