//! What is wrong with a file, or with the room that a caller gives.

ghost use Rattle.std.specs.Prelude.{◌≡◌};
ghost use Rattle.bench.specs.Faults.{cause_number, layer_number, fault_of};

/// Why a file or a call is turned down whole.
#[derive(Clone, Copy, PartialEq, Eq, Debug)]
pub enum Cause {
    /// The file ends inside a record.
    CutShort = 5,
    /// No record has that kind.
    UnknownKind = 6,
    /// The length is below 2, or not the kind's.
    WrongLength = 7,
    /// The first record is missing or does not name the protocol, or a later one does.
    ProtocolNotFirst = 8,
    /// No protocol has that code.
    UnknownCode = 9,
    /// There are more than 32,768 bytes, or more than 4,096 steps.
    TooLong = 10,
    /// The report, or the file that is written, does not fit the output.
    OutputTooShort = 11,
    /// There are fewer outcomes than steps, or fewer answers than requests.
    TooFewOutcomes = 12,
}

/// Who found the fault: the reader of records, the plan made of them, or the call of an embedding program.
#[derive(Clone, Copy, PartialEq, Eq, Debug)]
pub enum Layer {
    Reader = 1,
    Plan = 2,
    Caller = 3,
}

/// A fault: its cause, its place, and the layer that found it. The place is that of the record in its file; 32768 where the file is too
/// long, and 0 where the file has no record or a call is at fault.
#[derive(Clone, Copy, PartialEq, Eq, Debug)]
pub struct Fault {
    pub cause: Cause,
    pub place: u16,
    pub layer: Layer,
}

/// The number by which a report names a cause.
impl From<Cause> for u8 {
    ghost from_gives = { λ cause n. n ≡ cause_number cause };

    fn from(cause: Cause) -> u8 {
        cause as u8
    }
}

/// The number by which a report names a layer.
impl From<Layer> for u8 {
    ghost from_gives = { λ layer n. n ≡ layer_number layer };

    fn from(layer: Layer) -> u8 {
        layer as u8
    }
}

impl Layer {
    /// The fault that the layer finds at a place.
    pub fn fault(self, cause: Cause, place: u16) -> Fault
        ensures { result ≡ fault_of self cause place }
    {
        Fault {
            cause,
            place,
            layer: self,
        }
    }
}
