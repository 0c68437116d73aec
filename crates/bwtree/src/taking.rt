//! What an operation takes: the next free record, frame or slot from its seat's cursors on.

ghost use Rattle.std.specs.Prelude.{◌≡◌};
ghost use Rattle.bwtree.specs.Builds.{second_record_for};
ghost use Rattle.bwtree.specs.Lent.{TakesForSplit, free_frame_from, free_record_from, free_slot_from, held};

use crate::answer::End;
use crate::memory::LentMemory;
use crate::seat::Cursors;
use pool::free::{next_free, other_free};

/// What a split takes: its two records, and the frame and the slot of its new leaf.
#[derive(Clone, Copy, Debug, PartialEq, Eq)]
pub struct Taken {
    pub split: usize,
    pub separator: usize,
    pub frame: usize,
    pub target: usize,
}

// One name for each pool: which array it is, which cursor belongs to it and what is free there stand together.
impl<K: Copy> LentMemory<'_, K> {
    pub(crate) fn free_record(&self, cursors: Cursors) -> Option<usize>
        ensures { result ≡ free_record_from (held self.now) cursors }
    {
        next_free(self.records, cursors.records)
    }

    /// A second free record beside `number`.
    pub(crate) fn second_record(&self, number: usize) -> Option<usize>
        ensures { result ≡ second_record_for (held self.now) number }
    {
        other_free(self.records, number)
    }

    pub(crate) fn free_frame(&self, cursors: Cursors) -> Option<usize>
        ensures { result ≡ free_frame_from (held self.now) cursors }
    {
        next_free(self.frames, cursors.frames)
    }

    pub(crate) fn free_slot(&self, cursors: Cursors) -> Option<usize>
        ensures { result ≡ free_slot_from (held self.now) cursors }
    {
        next_free(self.slots, cursors.slots)
    }

    /// What a split takes, or how it ends where something is not free.
    pub(crate) fn take_for_split(&self, cursors: Cursors) -> Result<Taken, End>
        ensures { TakesForSplit (held self.now) cursors result }
    {
        let frame = self.free_frame(cursors).ok_or(End::NoFrame)?;
        let target = self.free_slot(cursors).ok_or(End::NoSlot)?;
        let split = self.free_record(cursors).ok_or(End::TooFewRecords)?;
        let separator = self.second_record(split).ok_or(End::TooFewRecords)?;
        Ok(Taken {
            split,
            separator,
            frame,
            target,
        })
    }
}
