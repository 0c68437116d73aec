//! The reads and writes of the steps. A read is refused where a number lies out of range.

ghost use Rattle.std.specs.Prelude.{◌≡◌};
ghost use Rattle.std.specs.List.{slice_get};
ghost use Rattle.nodes.specs.Chains.{attributes_of, frame_under};
ghost use Rattle.nodes.specs.Frames.{start_of};
ghost use Rattle.bwtree.specs.Lent.{Becomes, IsOldChain, Reads, held};
ghost use Rattle.bwtree.specs.Memory.{head_in, set_frame, set_record, set_seat, set_slot};

use crate::answer::Refusal;
use crate::memory::LentMemory;
use crate::old_chain::OldChain;
use crate::seat::Seat;
use crate::turn::Turn;
use nodes::access::poke;
use nodes::chain::{attributes, frame_under};
use nodes::items::Items;
use nodes::node::{Attributes, Frame, Head, Record, Slot};

/// What lies at a place, refused past the end.
fn read<T: Copy>(xs: &[T], place: usize) -> Result<T, Refusal>
    ensures { Reads (slice_get xs.now place) result }
{
    xs.get(place).copied().ok_or(Refusal::Impossible)
}

impl<K: Copy> LentMemory<'_, K> {
    pub(crate) fn seat(&self, number: usize) -> Result<Seat<K>, Refusal>
        ensures { Reads (slice_get (held self.now).seats number) result }
    {
        read(self.seats, number)
    }

    pub(crate) fn record(&self, number: usize) -> Result<Record<K>, Refusal>
        ensures { Reads (slice_get (held self.now).records number) result }
    {
        read(self.records, number)
    }

    pub(crate) fn frame(&self, number: usize) -> Result<Frame<K>, Refusal>
        ensures { Reads (slice_get (held self.now).frames number) result }
    {
        read(self.frames, number)
    }

    pub(crate) fn slot(&self, slot: usize) -> Result<Slot, Refusal>
        ensures { Reads (slice_get (held self.now).slots slot) result }
    {
        read(self.slots, slot)
    }

    /// The head in a slot that is not empty.
    pub(crate) fn head_in(&self, slot: usize) -> Result<Head, Refusal>
        ensures { Reads (head_in (held self.now) slot) result }
    {
        self.slot(slot)?.head.ok_or(Refusal::Impossible)
    }

    /// The attributes of the chain that a head names.
    pub(crate) fn attributes(&self, head: Head) -> Result<Attributes<K>, Refusal>
        ensures { Reads (attributes_of (held self.now).records (held self.now).frames head) result }
    {
        attributes(self.records, self.frames, head).ok_or(Refusal::Impossible)
    }

    /// The chain of a snapshot that was taken from a slot.
    pub(crate) fn old_chain(&self, slot: usize, snapshot: Head) -> Result<OldChain<K>, Refusal>
        ensures { IsOldChain (held self.now) slot snapshot result }
    {
        Ok(OldChain {
            slot,
            head: snapshot,
            attributes: self.attributes(snapshot)?,
        })
    }

    /// The frame under a head, at most `depth` records down.
    pub(crate) fn frame_under(&self, head: Head, depth: usize) -> Result<usize, Refusal>
        ensures { Reads (frame_under depth (held self.now).records head) result }
    {
        frame_under(self.records, head, depth).ok_or(Refusal::Impossible)
    }

    /// Both item arrays, to be read.
    pub(crate) fn items(&self) -> Items<'_, K>
        ensures keys { result.keys.now ≡ self.now.keys.now }
        ensures values { result.values.now ≡ self.now.values.now }
    {
        Items {
            keys: self.keys,
            values: self.values,
        }
    }

    /// The first place of a frame.
    pub(crate) fn start(&self, frame: usize) -> Result<usize, Refusal>
        ensures { Reads (start_of (held self.now).keys (held self.now).values frame) result }
    {
        self.items().start(frame).ok_or(Refusal::Impossible)
    }

    /// The key of the item at a place.
    pub(crate) fn key(&self, place: usize) -> Result<K, Refusal>
        ensures { Reads (slice_get (held self.now).keys place) result }
    {
        read(self.keys, place)
    }

    pub(crate) fn set_slot(&mut self, slot: usize, head: Option<Head>)
        ensures { Becomes self.old self.new (set_slot (held self.old) slot head) }
    {
        poke(self.slots, slot, Slot { head });
    }

    pub(crate) fn set_record(&mut self, number: usize, filled: Record<K>)
        ensures { Becomes self.old self.new (set_record (held self.old) number filled) }
    {
        poke(self.records, number, filled);
    }

    pub(crate) fn set_frame(&mut self, number: usize, frame: Frame<K>)
        ensures { Becomes self.old self.new (set_frame (held self.old) number frame) }
    {
        poke(self.frames, number, frame);
    }

    /// A turn's seat is written whole.
    pub(crate) fn set_seat(&mut self, turn: Turn<K>)
        ensures { Becomes self.old self.new (set_seat (held self.old) turn.number turn.seat) }
    {
        poke(self.seats, turn.number, turn.seat);
    }
}
