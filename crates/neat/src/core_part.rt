//! One core's part: its private lines, the messages between it and the shared cache, and what it waits for.

ghost use Rattle.std.specs.Prelude.{◌≡◌, ◌+◌, ◌<◌};
ghost use Rattle.protocol.specs.Cells.{line_of};
ghost use Rattle.neat_rules.specs.State.{with_place, with_activity, Idle, Line as RuleLine, Place, Slot as RuleSlot};
ghost use Rattle.neat_rules.specs.Rules.{awaiting, closing_by, load as load_rule, store as store_rule, evict as evict_rule, release as release_rule, acquire as acquire_rule, settled as settled_rule, ended as ended_rule, after_ack, getline_moved, data_moved, put_moved, putack_moved, answered, commit_moved, close_moved, putallack_moved, message_moved, given, close_place_moved};
ghost use Rattle.neat_rules.specs.Reading.{carries, close_carries};
ghost use Rattle.neat.specs.Blocks.{as_bytes};
ghost use Rattle.neat.specs.Parts.{as_core, as_activity, as_place, SendsBy, waiting, no_core, quiet, stored_in, filled};

use crate::message::{Closing, Message};
use crate::slot::Slot;
use protocol::{Address, Core, Ended, Line, Offset, Reply};

/// What a core waits for.
#[derive(Clone, Copy)]
pub enum Activity {
    /// The line of an address, to load from it.
    Loading(Address),
    /// The line of an address, to store a byte there.
    Storing(Address, u8),
    /// The end of an acquire.
    Acquiring,
    /// The end of a release.
    Releasing,
}

/// A core's part.
// It has no `Model`: a model's value is data, and Neat's rules are over functions of the line.
#[derive(Clone, Copy)]
pub struct CorePart {
    slots: [Slot; 8],
    closing: Closing,
    /// The Commits that the LLC has received and not yet answered.
    received: u8,
    /// What the core waits for, if it does.
    activity: Option<Activity>,
}

impl CorePart {
    /// A core with every line I and nothing on its way.
    pub fn new() -> CorePart
        ensures { as_core result ≡ no_core }
    {
        CorePart {
            slots: [Slot::new(); 8],
            closing: Closing::Shut,
            received: 0,
            activity: None,
        }
    }

    /// Whether the core waits for a call.
    pub fn waits(&self) -> bool
        ensures { result ≡ waiting (as_activity self.now.activity) }
    {
        self.activity.is_some()
    }

    /// Stores a byte in a line.
    fn write(&mut self, line: Line, offset: Offset, byte: u8)
        ensures { as_core self.new ≡ stored_in (as_core self.old) line.number offset.number byte }
    {
        self.slots[line.index()].write(offset, byte);
    }

    /// Fills a line with the bytes of its Data, and empties its place.
    fn fill(&mut self, line: Line, bytes: [u8; 8])
        ensures { as_core self.new ≡ filled (as_core self.old) line.number (as_bytes bytes) }
    {
        self.slots[line.index()].fill(bytes);
    }

    /// Asks for the line of an address, and waits.
    fn wait_for(&mut self, address: Address, activity: Activity)
        ensures { as_core self.new ≡ awaiting (as_core self.old) (line_of address.number) (as_activity (Some activity)) }
    {
        self.slots[address.line().index()].ask();
        self.activity = Some(activity);
    }

    /// Loads a byte: at once with the line V, else when the line has come.
    pub fn load(&mut self, core: Core, address: Address) -> Reply
        ensures { (result, as_core self.new) ≡ load_rule core.number address.number (as_core self.old) }
    {
        match &self.slots[address.line().index()].line {
            Some(block) => Reply::Ended(Ended::Loaded {
                core: core.into(),
                address: address.into(),
                byte: block.read(address.offset()),
            }),
            None => {
                self.wait_for(address, Activity::Loading(address));
                Reply::Waits
            }
        }
    }

    /// Stores a byte: at once with the line V, else when the line has come.
    pub fn store(&mut self, core: Core, address: Address, byte: u8) -> Reply
        ensures { (result, as_core self.new) ≡ store_rule core.number address.number byte (as_core self.old) }
    {
        match &mut self.slots[address.line().index()].line {
            Some(block) => {
                block.write(address.offset(), byte);
                Reply::Ended(Ended::Stored {
                    core: core.into(),
                    address: address.into(),
                    byte,
                })
            }
            None => {
                self.wait_for(address, Activity::Storing(address, byte));
                Reply::Waits
            }
        }
    }

    /// Makes a line I, and sends it as Put if it was dirty.
    pub fn evict(&mut self, core: Core, line: Line) -> Reply
        ensures { (result, as_core self.new) ≡ evict_rule core.number line.number (as_core self.old) }
    {
        self.slots[line.index()].evict();
        Reply::Ended(Ended::Evicted {
            core: core.into(),
            line: line.into(),
        })
    }

    /// Sends what each line has to send, and Close with the number of Commits, and waits.
    fn close<F: Fn(&mut Slot) -> bool>(&mut self, send: F, activity: Activity) -> Reply
        requires { F.IsAlwaysCallable send }
        ensures { (rule : RuleLine → Place → RuleSlot) → SendsBy (F.post send) rule → (result, as_core self.new) ≡ closing_by rule (as_activity (Some activity)) (as_core self.old) }
    {
        let mut commits = 0;
        // A loop: behind `iter_mut().map(send)` a proof knows nothing of the slots.
        for slot in self.slots.iter_mut() {
            commits += u8::from(send(slot));
        }
        self.closing = Closing::Close(commits);
        self.activity = Some(activity);
        Reply::Waits
    }

    /// Sends each dirty line as Commit and keeps it, sends Close with their number, and waits.
    pub fn release(&mut self) -> Reply
        ensures { (result, as_core self.new) ≡ release_rule (as_core self.old) }
    {
        self.close(Slot::release, Activity::Releasing)
    }

    /// Sends each dirty line as Commit, makes every line I, sends Close with the number of Commits, and waits.
    pub fn acquire(&mut self) -> Reply
        ensures { (result, as_core self.new) ≡ acquire_rule (as_core self.old) }
    {
        self.close(Slot::acquire, Activity::Acquiring)
    }

    /// Whether the Close is over and no Put or PutAck is left.
    fn is_settled(&self) -> bool
        ensures { result ≡ settled_rule (as_core self.now) }
    {
        self.closing == Closing::Shut && !self.slots.iter().any(Slot::is_outstanding)
    }

    /// Ends the call that the core waits for.
    fn finish(&mut self, call: Ended) -> Reply
        ensures reply { result ≡ Reply.Finished call }
        ensures core { as_core self.new ≡ with_activity (as_core self.old) Idle }
    {
        self.activity = None;
        Reply::Finished(call)
    }

    /// Ends an acquire or release once the core is settled.
    fn end(&mut self, core: Core) -> Reply
        ensures { (result, as_core self.new) ≡ ended_rule (as_activity self.old.activity) core.number (as_core self.old) }
    {
        match self.activity {
            Some(Activity::Acquiring) if self.is_settled() => self.finish(Ended::Acquired {
                core: core.into(),
            }),
            Some(Activity::Releasing) if self.is_settled() => self.finish(Ended::Released {
                core: core.into(),
            }),
            _ => Reply::Moved,
        }
    }

    /// Puts a message into the place of a line, or empties it.
    fn carry(&mut self, line: Line, place: Option<Message>)
        ensures { as_core self.new ≡ with_place (as_core self.old) line.number (as_place place) }
    {
        self.slots[line.index()].place = place;
    }

    /// A moved GetLine becomes Data with the LLC's line.
    fn get_line_moved(&mut self, line: Line, bytes: [u8; 8]) -> Reply
        ensures { (result, as_core self.new) ≡ getline_moved line.number (as_bytes bytes) (as_core self.old) }
    {
        self.carry(line, Some(Message::Data(bytes)));
        Reply::Moved
    }

    /// A moved Data fills its line, and the waiting load or store is done and ends.
    fn data_moved(&mut self, core: Core, line: Line, bytes: [u8; 8]) -> Reply
        ensures { (result, as_core self.new) ≡ data_moved (as_bytes bytes) core.number line.number (as_core self.old) }
    {
        self.fill(line, bytes);
        match self.activity {
            Some(Activity::Loading(address)) => self.finish(Ended::Loaded {
                core: core.into(),
                address: address.into(),
                byte: bytes[address.offset().index()],
            }),
            Some(Activity::Storing(address, byte)) => {
                self.write(line, address.offset(), byte);
                self.finish(Ended::Stored {
                    core: core.into(),
                    address: address.into(),
                    byte,
                })
            }
            None | Some(Activity::Acquiring | Activity::Releasing) => Reply::Moved,
        }
    }

    /// A moved Put becomes PutAck.
    fn put_moved(&mut self, line: Line) -> Reply
        ensures { (result, as_core self.new) ≡ put_moved line.number (as_core self.old) }
    {
        self.carry(line, Some(Message::PutAck));
        Reply::Moved
    }

    /// What follows a PutAck: GetLine, if it was held back for this line.
    fn after_ack(&self, line: Line) -> Option<Message>
        ensures { as_place result ≡ after_ack (as_core self.now).activity line.number }
    {
        match self.activity {
            Some(Activity::Loading(address) | Activity::Storing(address, _))
                if address.line() == line => { Some(Message::GetLine) }
            _ => None,
        }
    }

    /// A moved PutAck empties its place, or GetLine follows; an acquire or release may end with it.
    fn put_ack_moved(&mut self, core: Core, line: Line) -> Reply
        ensures { (result, as_core self.new) ≡ putack_moved core.number line.number (as_core self.old) }
    {
        let next = self.after_ack(line);
        self.carry(line, next);
        self.end(core)
    }

    /// Answers a noted Close with PutAllAck once all its Commits are received.
    fn answer(&mut self)
        ensures { as_core self.new ≡ answered (as_core self.old) }
    {
        if self.closing == Closing::Noted(self.received) {
            self.closing = Closing::PutAllAck;
            self.received = 0;
        }
    }

    // The count is small because at most eight Commits are on their way in a reached state. Only the whole protocol keeps that its state
    // is reached: a ghost field here could not hold after the count is raised.
    /// A moved Commit empties its place and is counted.
    fn commit_moved(&mut self, line: Line) -> Reply
        requires { self.old.received < 255 }
        ensures { (result, as_core self.new) ≡ commit_moved line.number (as_core self.old) }
    {
        self.carry(line, None);
        self.received += 1;
        self.answer();
        Reply::Moved
    }

    /// A moved Close is noted.
    fn close_moved(&mut self, count: u8) -> Reply
        ensures { (result, as_core self.new) ≡ close_moved count (as_core self.old) }
    {
        self.closing = Closing::Noted(count);
        self.answer();
        Reply::Moved
    }

    /// A moved PutAllAck empties the close place; the acquire or release may end with it.
    fn put_all_ack_moved(&mut self, core: Core) -> Reply
        ensures { (result, as_core self.new) ≡ putallack_moved core.number (as_core self.old) }
    {
        self.closing = Closing::Shut;
        self.end(core)
    }

    /// Whether the place of a line carries a message.
    pub fn carries(&self, line: Line) -> bool
        ensures { result ≡ carries ((as_core self.now).slot line.number).place }
    {
        self.slots[line.index()].carries()
    }

    /// Whether the close place carries a message.
    pub fn close_carries(&self) -> bool
        ensures { result ≡ close_carries (as_core self.now).closing }
    {
        matches!(self.closing, Closing::Close(_) | Closing::PutAllAck)
    }

    /// Whether none of the nine places carries a message.
    pub fn is_quiet(&self) -> bool
        ensures { result ≡ quiet (as_core self.now) }
    {
        // Without a branch for each place: with `any`, which leaves at the first message, settling was 5 parts in 100 slower.
        let open = self
            .slots
            .iter()
            .fold(false, |open, slot| open | slot.carries());
        !open && !self.close_carries()
    }

    // Core and line are two parameters here as in the rules: a struct of both would be taken apart again in each function.
    /// Moves the message about a line, of which the LLC has `shared`.
    pub fn move_message(&mut self, core: Core, line: Line, shared: &mut [u8; 8]) -> Reply
        requires { self.old.received < 255 }
        ensures answer { (result, as_core self.new) ≡ message_moved ((as_core self.old).slot line.number).place core.number line.number (as_bytes shared.old) (as_core self.old) }
        ensures taken { as_bytes shared.new ≡ given ((as_core self.old).slot line.number).place (as_bytes shared.old) }
    {
        match &self.slots[line.index()].place {
            None => Reply::Moved,
            Some(Message::GetLine) => self.get_line_moved(line, *shared),
            Some(Message::Data(bytes)) => {
                let bytes = *bytes;
                self.data_moved(core, line, bytes)
            }
            Some(Message::Put(block)) => {
                block.merge_into(shared);
                self.put_moved(line)
            }
            Some(Message::PutAck) => self.put_ack_moved(core, line),
            Some(Message::Commit(block)) => {
                block.merge_into(shared);
                self.commit_moved(line)
            }
        }
    }

    /// Moves the message in the close place.
    pub fn move_close(&mut self, core: Core) -> Reply
        ensures { (result, as_core self.new) ≡ close_place_moved (as_core self.old).closing core.number (as_core self.old) }
    {
        match self.closing {
            Closing::Close(count) => self.close_moved(count),
            Closing::PutAllAck => self.put_all_ack_moved(core),
            Closing::Shut | Closing::Noted(_) => Reply::Moved,
        }
    }
}
