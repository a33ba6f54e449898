//! Buffers on buffers.

ghost use Rattle.buffer_rules.specs.Buffered.{buffered};
ghost use Rattle.store_buffer.specs.Held.{pile};

use crate::buffer::StoreBuffer;
use protocol::Protocol;

/// A buffer over a buffer over a protocol, all cleared.
pub fn stacked<P: Protocol>(below: P) -> StoreBuffer<StoreBuffer<P>>
    ensures { (buffered (buffered P.Protocol.machine)).fresh (pile (pile (P.Protocol.state result.below.below) result.below.buffers) result.buffers) }
{
    StoreBuffer::new(StoreBuffer::new(below))
}
