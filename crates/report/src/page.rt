//! A buffer that is filled from its start on.

ghost use Rattle.std.specs.Prelude.{◌≤◌, length};

// A type of ours: std's `Cursor<&mut [u8]>` answers a `Result` that never fails and says nothing of the bytes, and an `ArrayVec` owns its
// bytes, where these are the caller's.

/// A buffer that is filled piece by piece. What has no room is left out.
#[derive(Drop)]
pub struct Page<'a> {
    buffer: &'a mut [u8],
    filled: usize,
    ghost within: { filled ≤ length buffer.now },
}

impl<'a> Page<'a> {
    ghost use Rattle.std.specs.Prelude.{◌≡◌, []};
    ghost use Rattle.report.specs.Page.{buffer_of, written, rest, Puts};

    /// A page with nothing written.
    pub fn new(buffer: &'a mut [u8]) -> Page<'a>
        ensures same_buffer { buffer_of result ≡ buffer.entry.ghost_name }
        ensures written { written result ≡ [] }
        ensures rest { rest result ≡ buffer.old }
    {
        Page { buffer, filled: 0 }
    }

    /// How many bytes were written.
    pub fn filled(&self) -> usize
        ensures { result ≡ length (written self.now) }
    {
        self.filled
    }

    /// Writes bytes that there is room for behind what was written.
    fn put_whole(&mut self, bytes: &[u8])
        requires { length bytes.now ≤ length (rest self.old) }
        ensures { Puts self.old self.new bytes.now }
    {
        let end = self.filled + bytes.len();
        let buffer = &mut *self.buffer;
        buffer[self.filled..end].copy_from_slice(bytes);
        self.filled = end;
    }

    /// Writes some bytes behind what was written, as far as there is room.
    pub fn put(&mut self, bytes: &[u8])
        ensures { Puts self.old self.new bytes.now }
    {
        let room = self.buffer.len() - self.filled;
        // Two cases, and no `min`: a piece whose length is known is then copied by a few moves, and a `min` made a call of each copy.
        if bytes.len() <= room {
            self.put_whole(bytes);
        } else {
            self.put_whole(&bytes[..room]);
        }
    }
}
