//! The bytes of a line with their write bits.

ghost use Rattle.std.specs.Prelude.{◌≡◌, ◌%◌, ◌<◌};
ghost use Rattle.neat_rules.specs.State.{dirty, clean, stored, merged};
ghost use Rattle.neat.specs.Blocks.{as_bytes, as_block};

use protocol::Offset;

/// Bytes of a line and the mask of their write bits, where bit o is that of offset o: what a private line holds, and what a core sends of it.
#[derive(Clone, Copy)]
pub struct Block {
    bytes: [u8; 8],
    // A mask: whether a line is dirty is one test.
    written: u8,
}

impl Block {
    /// Bytes without write bits.
    pub fn clean(bytes: [u8; 8]) -> Block
        ensures { as_block result ≡ clean (as_bytes bytes) }
    {
        Block { bytes, written: 0 }
    }

    /// Whether a write bit is set.
    pub fn is_dirty(&self) -> bool
        ensures { result ≡ dirty (as_block self.now) }
    {
        self.written != 0
    }

    /// The byte at an offset.
    pub fn read(&self, offset: Offset) -> u8
        ensures { result ≡ (as_block self.now).bytes offset.number }
    {
        self.bytes[offset.index()]
    }

    /// Stores a byte and sets its write bit.
    pub fn write(&mut self, offset: Offset, byte: u8)
        ensures { as_block self.new ≡ stored (as_block self.old) offset.number byte }
    {
        let at = offset.index();
        self.bytes[at] = byte;
        self.written |= 1 << at;
    }

    /// Takes what is to be sent, and clears the write bits.
    pub fn take(&mut self) -> Block
        ensures sent { as_block result ≡ as_block self.old }
        ensures kept { as_block self.new ≡ clean (as_block self.old).bytes }
    {
        // Field by field: a copy of the whole block went through the stack, and releases were slower.
        let sent = Block {
            bytes: self.bytes,
            written: self.written,
        };
        self.written = 0;
        sent
    }

    /// Whether the write bit of an offset is set.
    fn is_written(&self, offset: usize) -> bool
        requires { offset < 8 }
        ensures { result ≡ (as_block self.now).written offset }
    {
        (self.written >> offset) % 2 == 1
    }

    /// Gives a line the bytes whose write bits are set.
    pub fn merge_into(&self, line: &mut [u8; 8])
        ensures { as_bytes line.new ≡ merged (as_block self.now) (as_bytes line.old) }
    {
        // By the offset: a `zip` with `line.iter_mut()` tells a proof nothing of the line.
        for (offset, byte) in self.bytes.iter().enumerate() {
            if self.is_written(offset) {
                line[offset] = *byte;
            }
        }
    }
}
