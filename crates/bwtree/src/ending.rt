//! How a step ends: the operation goes on, or ends and leaves all waits.

ghost use Rattle.std.specs.Prelude.{◌≡◌, Ok};
ghost use Rattle.bwtree.specs.Lent.{Gives, held};
ghost use Rattle.bwtree.specs.Memory.{ended, goes, left};

use crate::answer::{Answer, End, Ending};
use crate::memory::LentMemory;
use crate::seat::Phase;
use crate::turn::Turn;
use nodes::node::Attributes;
use pool::waits::leave;

impl Ending {
    /// An ending with depth and size of the chain whose attributes these are.
    pub(crate) fn on<K: Copy>(end: End, value: u64, chain: &Attributes<K>) -> Ending
        ensures { result ≡ record { end = end; value = value; depth = chain.now.depth; size = chain.now.size } }
    {
        Ending {
            end,
            value,
            depth: chain.depth,
            size: chain.size,
        }
    }
}

impl<K: Copy> LentMemory<'_, K> {
    /// The operation goes on with a phase.
    pub(crate) fn goes(&mut self, turn: Turn<K>, phase: Phase) -> Answer
        ensures { Gives (goes (held self.old) turn.number turn.seat phase) self.old self.new (Ok result) }
    {
        self.set_seat(turn.at(phase));
        Answer::Going
    }

    /// The operation of an idle seat has ended: the seat leaves all waits.
    pub(crate) fn leave_waits(&mut self, seat: usize, ending: Ending) -> Answer
        ensures { Gives (left (held self.old) seat ending.end ending.value ending.depth ending.size) self.old self.new (Ok result) }
    {
        leave(self.records, self.frames, seat);
        Answer::Ended(ending)
    }

    /// The operation of a seat ends: the seat is idle, and leaves all waits.
    pub(crate) fn ends(&mut self, turn: Turn<K>, ending: Ending) -> Answer
        ensures { Gives (ended (held self.old) turn.number turn.seat ending.end ending.value ending.depth ending.size) self.old self.new (Ok result) }
    {
        self.set_seat(turn.at(Phase::Idle));
        self.leave_waits(turn.number, ending)
    }
}
