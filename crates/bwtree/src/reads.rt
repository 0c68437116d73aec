//! Root read and leaf read.

ghost use Rattle.bwtree.specs.Lent.{Follows, held};
ghost use Rattle.bwtree.specs.Walks.{leaf_read, root_read};

use crate::answer::{Answer, Refusal};
use crate::memory::LentMemory;
use crate::seat::Phase;
use crate::turn::Turn;
use keys::order::Ordered;
use nodes::scan::fits;

impl<K: Ordered> LentMemory<'_, K> {
    /// Root read: the root's head is the snapshot.
    pub fn root_read(&mut self, turn: Turn<K>) -> Result<Answer, Refusal>
        ensures { Follows (root_read (held self.old) turn.number turn.seat) self.old self.new result }
    {
        let snapshot = self.head_in(0)?;
        Ok(self.goes(turn, turn.seat.request.after_root_read(snapshot)))
    }

    /// Leaf read: the slot's head is the snapshot, or the side link is crossed.
    pub fn leaf_read(&mut self, turn: Turn<K>, slot: usize) -> Result<Answer, Refusal>
        ensures { Follows (leaf_read K.Ordered.before (held self.old) turn.number turn.seat slot) self.old self.new result }
    {
        let key = turn.seat.request.key()?;
        let snapshot = self.head_in(slot)?;
        let leaf = self.attributes(snapshot)?;
        let phase = if !fits(&key, leaf.high) {
            let slot = leaf.right.ok_or(Refusal::Impossible)?;
            Phase::LeafRead { slot }
        } else {
            turn.seat.request.after_leaf_read(slot, snapshot)
        };
        Ok(self.goes(turn, phase))
    }
}
