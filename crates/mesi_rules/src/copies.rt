//! One core's copy of a line.

ghost use Rattle.std.specs.Prelude.{◌≡◌};
ghost use Rattle.std.specs.Option.{option_copied};
ghost use Rattle.mesi_rules.specs.Copies.{holds, is_modified, written, held_line, modified_line, downgraded};

use protocol::Offset;

/// One core's copy of a line: I, or S, E or M with the line's eight bytes.
// The variants are the four states of the protocol's tables. An Option of a state beside its bytes is no plainer: it names them twice.
#[derive(Clone, Copy)]
pub enum PrivateLine {
    Invalid,
    Shared([u8; 8]),
    Exclusive([u8; 8]),
    Modified([u8; 8]),
}

impl PrivateLine {
    /// The line, if the core holds it.
    pub fn held(&self) -> Option<&[u8; 8]>
        ensures { option_copied result ≡ held_line self.now }
    {
        match self {
            PrivateLine::Invalid => None,
            PrivateLine::Shared(line)
            | PrivateLine::Exclusive(line)
            | PrivateLine::Modified(line) => Some(line),
        }
    }

    /// The line, if the core has it in M.
    pub fn modified(&self) -> Option<&[u8; 8]>
        ensures { option_copied result ≡ modified_line self.now }
    {
        match self {
            PrivateLine::Modified(line) => Some(line),
            _ => None,
        }
    }

    /// Whether the core holds the line.
    pub fn holds(&self) -> bool
        ensures { result ≡ holds self.now }
    {
        !matches!(self, PrivateLine::Invalid)
    }

    /// Whether the core has the line in M.
    pub fn is_modified(&self) -> bool
        ensures { result ≡ is_modified self.now }
    {
        matches!(self, PrivateLine::Modified(_))
    }

    /// Writes a byte of an M copy.
    pub fn write(&mut self, offset: Offset, byte: u8)
        ensures { self.new ≡ written offset.number byte self.old }
    {
        if let PrivateLine::Modified(line) = self {
            line[offset.index()] = byte;
        }
    }

    /// What another core's load leaves: S where M or E was.
    pub fn downgraded(self) -> PrivateLine
        ensures { result ≡ downgraded self }
    {
        self.held()
            .map_or(PrivateLine::Invalid, |line| PrivateLine::Shared(*line))
    }
}
