//! A private line together with the place between its core and the shared cache.

ghost use Rattle.std.specs.Prelude.{◌≡◌, if◌then◌else◌};
ghost use Rattle.neat_rules.specs.State.{Block as RuleBlock, Place, I, V, Put as PutMessage, Commit as CommitMessage, clean, Empty};
ghost use Rattle.neat_rules.specs.Rules.{asked, emptied, released, commits_of, outstanding};
ghost use Rattle.neat_rules.specs.Reading.{carries};
ghost use Rattle.neat.specs.Blocks.{as_bytes};
ghost use Rattle.neat.specs.Lines.{written_in, sent_as};
ghost use Rattle.neat.specs.Parts.{as_slot, MakesBy};

use crate::block::Block;
use crate::message::Message;
use protocol::Offset;

/// A private line, which is I or V with its block, and what its place carries: nothing, or one message.
#[derive(Clone, Copy)]
pub struct Slot {
    pub line: Option<Block>,
    pub place: Option<Message>,
}

impl Slot {
    /// A line that is I, with an empty place.
    pub fn new() -> Slot
        ensures { as_slot result ≡ record { line = I; place = Empty } }
    {
        Slot {
            line: None,
            place: None,
        }
    }

    /// Puts GetLine into the place, or leaves what is still there: GetLine is then held back.
    pub fn ask(&mut self)
        ensures { as_slot self.new ≡ record { line = (as_slot self.old).line; place = asked (as_slot self.old).place } }
    {
        if self.place.is_none() {
            self.place = Some(Message::GetLine);
        }
    }

    /// Stores a byte in the line, if that is V.
    pub fn write(&mut self, offset: Offset, byte: u8)
        ensures { as_slot self.new ≡ record { line = written_in (as_slot self.old).line offset.number byte; place = (as_slot self.old).place } }
    {
        if let Some(block) = &mut self.line {
            block.write(offset, byte);
        }
    }

    /// Sends a dirty line in a message and keeps it, clean. Answers whether it was dirty.
    fn send<M: FnOnce(Block) -> Message>(&mut self, message: M) -> bool
        requires { M.IsAlwaysCallable message }
        ensures slot { (rule : RuleBlock → Place) → MakesBy (M.post message) rule → as_slot self.new ≡ sent_as rule (as_slot self.old).line (as_slot self.old).place }
        ensures sent { (if result then 1 else 0) ≡ commits_of (as_slot self.old).line }
    {
        match &mut self.line {
            Some(block) if block.is_dirty() => {
                let sent = block.take();
                self.place = Some(message(sent));
                true
            }
            _ => false,
        }
    }

    /// Makes the line I, and sends it as Put if it was dirty.
    pub fn evict(&mut self)
        ensures { as_slot self.new ≡ emptied PutMessage (as_slot self.old).line (as_slot self.old).place }
    {
        self.send(Message::Put);
        self.line = None;
    }

    /// Sends a dirty line as Commit and keeps it, clean. Answers whether it was dirty.
    pub fn release(&mut self) -> bool
        ensures slot { as_slot self.new ≡ released (as_slot self.old).line (as_slot self.old).place }
        ensures sent { (if result then 1 else 0) ≡ commits_of (as_slot self.old).line }
    {
        self.send(Message::Commit)
    }

    /// Makes the line I, and sends it as Commit if it was dirty. Answers whether it was dirty.
    pub fn acquire(&mut self) -> bool
        ensures slot { as_slot self.new ≡ emptied CommitMessage (as_slot self.old).line (as_slot self.old).place }
        ensures sent { (if result then 1 else 0) ≡ commits_of (as_slot self.old).line }
    {
        let sent = self.send(Message::Commit);
        self.line = None;
        sent
    }

    /// Whether the place carries a message.
    pub fn carries(&self) -> bool
        ensures { result ≡ carries (as_slot self.now).place }
    {
        self.place.is_some()
    }

    /// Whether a Put or PutAck is in the place.
    pub fn is_outstanding(&self) -> bool
        ensures { (if result then 1 else 0) ≡ outstanding (as_slot self.now).place }
    {
        matches!(self.place, Some(Message::Put(_) | Message::PutAck))
    }

    /// A Data has come: its place is empty, and the line is V without write bits.
    pub fn fill(&mut self, bytes: [u8; 8])
        ensures { as_slot self.new ≡ record { line = V (clean (as_bytes bytes)); place = Empty } }
    {
        self.line = Some(Block::clean(bytes));
        self.place = None;
    }
}
