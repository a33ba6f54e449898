//! The store buffer: each core's buffer, and the protocol below.

ghost use Rattle.std.specs.Prelude.{◌≡◌, List, Some, None as Nothing, IfOk, IfErr};
ghost use Rattle.buffer_rules.specs.Buffered.{empty, buffered, AgainByFunction};
ghost use Rattle.store_buffer.specs.Held.{buffers_of, pile, turned_down_by, Follows, call_of_core};
ghost use Rattle.buffer_rules.specs.declared.entries.Entry.{Entry};
ghost use Rattle.buffer_rules.specs.Scripts.{Runs};
ghost use Rattle.buffer_rules.specs.Rules.{Work};
ghost use Rattle.buffer_rules.proofs.Keeps.{buffered_keeps};

use crate::core_buffer::CoreBuffer;
use protocol::{Address, Core, Line, Protocol, Refusal, Reply, Step};

/// A store buffer of four entries for each core, over a protocol.
#[derive(Drop)]
pub struct StoreBuffer<P> {
    below: P,
    buffers: [CoreBuffer; 8],
}

/// A buffer with no entry and no call to wait for, for each core.
fn empty_buffers() -> [CoreBuffer; 8]
    ensures { buffers_of result ≡ (λ c. empty) }
{
    Default::default()
}

/// The core that calls. It is refused if there is no such core, if what else its call names is refused, or if the core waits.
// Neat makes three like tests in `caller`. Who waits is each one's own state: a shared function would be public, take that as a
// closure, and ask that it may be called, which no public call here does.
fn admit<T: Drop>(
    buffers: &[CoreBuffer; 8],
    core: u8,
    named: Result<T, Refusal>,
) -> Result<Core, Refusal>
    ensures ok { IfOk result (λ x. (turned_down_by named (buffers_of buffers.now) core ≡ Nothing) × (x.number ≡ core)) }
    ensures err { IfErr result (λ e. turned_down_by named (buffers_of buffers.now) core ≡ Some e) }
{
    let core = Core::try_from(core)?;
    named?;
    if buffers[core.index()].waits() {
        return Err(Refusal::CoreWaits);
    }
    Ok(core)
}

impl<P: Protocol> StoreBuffer<P> {
    /// The buffer over a protocol, both cleared. Over a protocol whose answers are a function of its state, so are the buffer's.
    #[tactic(auto, using(buffer_rules::proofs::ByFunction::buffered_by_function))]
    pub fn new(mut below: P) -> StoreBuffer<P>
        ensures fresh { (buffered P.machine).fresh (pile (P.state result.below) result.buffers) }
        ensures functional { AgainByFunction P.machine }
    {
        below.clear();
        StoreBuffer {
            below,
            buffers: empty_buffers(),
        }
    }

    /// A core's call: it is refused, or it is that work on the core's buffer and on the protocol below.
    fn call<T: Drop, F: FnOnce(&mut CoreBuffer, &mut P) -> Reply>(
        &mut self,
        core: u8,
        named: Result<T, Refusal>,
        work: F,
    ) -> Reply
        requires { F.IsAlwaysCallable work }
        ensures { (rule : List Entry → Work) → Follows P.machine P.state F.FnOnce work rule
            → Runs P.machine.steps (call_of_core named core rule (buffers_of self.old.buffers)) (P.state self.old.below) (result, buffers_of self.new.buffers) (P.state self.new.below) }
    {
        match admit(&self.buffers, core, named) {
            Ok(caller) => work(&mut self.buffers[caller.index()], &mut self.below),
            Err(refusal) => Reply::Refused(refusal),
        }
    }
}

impl<P: Protocol> Protocol for StoreBuffer<P> {
    ghost machine = { buffered P.machine };

    ghost state = { λ b. pile (P.state b.below) b.buffers };

    ghost keeps = { buffered_keeps P.machine P.keeps };

    fn clear(&mut self) {
        self.below.clear();
        self.buffers = empty_buffers();
    }

    fn load(&mut self, core: u8, address: u8) -> Reply {
        self.call(core, Address::try_from(address), |buffer, below| {
            buffer.load(below, core, address)
        })
    }

    fn store(&mut self, core: u8, address: u8, byte: u8) -> Reply {
        self.call(core, Address::try_from(address), |buffer, below| {
            buffer.store(below, core, address, byte)
        })
    }

    fn acquire(&mut self, core: u8) -> Reply {
        self.call(core, Ok(()), |buffer, below| {
            buffer.stop(Step::Acquire { core }, below.acquire(core))
        })
    }

    fn release(&mut self, core: u8) -> Reply {
        self.call(core, Ok(()), |buffer, below| buffer.release(below, core))
    }

    fn evict(&mut self, core: u8, line: u8) -> Reply {
        self.call(core, Line::try_from(line), |buffer, below| {
            buffer.stop(Step::Evict { core, line }, below.evict(core, line))
        })
    }

    fn move_message(&mut self, place: u8) -> Reply {
        let reply = self.below.move_message(place);
        let Reply::Finished(ended) = reply else {
            return reply;
        };
        let Ok(caller) = Core::try_from(ended.core()) else {
            return reply;
        };
        self.buffers[caller.index()].go_on(&mut self.below, ended)
    }

    fn image(&self, address: u8) -> Result<u8, Refusal> {
        self.below.image(address)
    }

    fn next_open(&self, place: u8) -> Option<u8> {
        self.below.next_open(place)
    }
}
