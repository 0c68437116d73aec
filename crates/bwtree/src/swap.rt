//! The compare-and-swaps: swap, the swap of a split, post read and post swap.

ghost use Rattle.std.specs.Prelude.{◌≡◌};
ghost use Rattle.std.specs.List.{slice_get};
ghost use Rattle.nodes.specs.declared.node.Head.TheVariants.{Frame as FrameHead, Record as RecordHead};
ghost use Rattle.bwtree.specs.Lent.{Becomes, Follows, Reads, ending_of, held};
ghost use Rattle.bwtree.specs.Swaps.{given_back, open_seat, open_seats, post_read, post_swap, retiring, split_given_back, split_swap, swap as swap_rule, swapped};

use crate::answer::{Answer, End, Ending, Refusal};
use crate::delta::delta_on;
use crate::memory::LentMemory;
use crate::seat::Phase;
use crate::taking::Taken;
use crate::turn::Turn;
use nodes::node::{FrameState, Head, Kind, Record};
use pool::free::free_chain;
use pool::waits::{retire, set_state};
use std::array;

/// How the swap of a record ends its operation, with the value that this ending carries.
fn ending_of(kind: Kind, value: u64) -> Result<(End, u64), Refusal>
    ensures { Reads (ending_of kind value) result }
{
    match kind {
        Kind::Insertion => Ok((End::Stored, 0)),
        Kind::Deletion => Ok((End::Removed, value)),
        Kind::Split | Kind::Separator => Err(Refusal::Impossible),
    }
}

impl<K: Copy> LentMemory<'_, K> {
    /// Whether the seat at a place has an open operation.
    fn has_open(&self, number: usize) -> bool
        ensures { result ≡ open_seat (slice_get (held self.now).seats number) }
    {
        self.seats
            .get(number)
            .is_some_and(|seat| seat.phase.is_open())
    }

    /// Which of the four seats have an open operation.
    // An array of marks, one for each of the four seats: there is no heap for a set.
    fn open_seats(&self) -> [bool; 4]
        ensures { result ≡ open_seats (held self.now).seats }
    {
        array::from_fn(|number| self.has_open(number))
    }

    /// A replaced chain, of `count` records from `head` down to the frame `base`, waits for the seats that are open.
    fn retire(&mut self, base: usize, head: Head, count: usize)
        ensures { Becomes self.old self.new (retiring (held self.old) base head count) }
    {
        let seats = self.open_seats();
        retire(self.frames, base, head, count, seats);
    }

    /// A record or frame that was taken is free again.
    fn give_back(&mut self, head: Head)
        ensures { Becomes self.old self.new (given_back (held self.old) head) }
    {
        match head {
            Head::Record(_) => free_chain(self.records, head, 1),
            Head::Frame(number) => set_state(self.frames, number, FrameState::Free),
        }
    }

    /// All that a split took is free again.
    fn give_back_split(&mut self, taken: Taken)
        ensures { Becomes self.old self.new (split_given_back (held self.old) taken.split taken.separator taken.frame taken.target) }
    {
        self.give_back(Head::Record(taken.split));
        self.give_back(Head::Record(taken.separator));
        self.give_back(Head::Frame(taken.frame));
        self.set_slot(taken.target, None);
    }

    /// The swap of a record found its slot equal.
    // Beside the swap of a frame: a record ends its operation by its kind, a frame retires what it replaces.
    fn record_swapped(
        &mut self,
        turn: Turn<K>,
        slot: usize,
        snapshot: Head,
        number: usize,
    ) -> Result<Answer, Refusal>
        ensures { Follows (swapped (held self.old) turn.number turn.seat slot snapshot (RecordHead number)) self.old self.new result }
    {
        let delta = self.record(number)?.delta;
        let (end, value) = ending_of(delta.kind, delta.value)?;
        let ending = Ending::on(end, value, &delta.attributes);
        self.set_slot(slot, Some(Head::Record(number)));
        Ok(self.ends(turn.won(), ending))
    }

    /// The swap of a frame found its slot equal: the replaced chain is retired.
    fn frame_swapped(
        &mut self,
        turn: Turn<K>,
        slot: usize,
        snapshot: Head,
        number: usize,
    ) -> Result<Answer, Refusal>
        ensures { Follows (swapped (held self.old) turn.number turn.seat slot snapshot (FrameHead number)) self.old self.new result }
    {
        let attributes = self.frame(number)?.attributes;
        let depth = self.attributes(snapshot)?.depth;
        let base = self.frame_under(snapshot, depth)?;
        self.set_slot(slot, Some(Head::Frame(number)));
        self.set_seat(turn.won().at(Phase::Idle));
        self.retire(base, snapshot, depth);
        let ending = Ending::on(End::Consolidated, 0, &attributes);
        Ok(self.leave_waits(turn.number, ending))
    }

    /// Swap: the new record or frame becomes the head, unless the slot has changed since the snapshot. Then what was
    /// taken is free again, and the operation starts anew.
    pub fn swap(
        &mut self,
        turn: Turn<K>,
        slot: usize,
        snapshot: Head,
        fresh: Head,
    ) -> Result<Answer, Refusal>
        ensures { Follows (swap_rule (held self.old) turn.number turn.seat slot snapshot fresh) self.old self.new result }
    {
        if self.slot(slot)?.head != Some(snapshot) {
            self.give_back(fresh);
            return Ok(self.goes(turn.lost(), Phase::RootRead));
        }
        match fresh {
            Head::Record(number) => self.record_swapped(turn, slot, snapshot, number),
            Head::Frame(number) => self.frame_swapped(turn, slot, snapshot, number),
        }
    }

    /// The swap of a split: the split record becomes the leaf's head, and the separator is posted next.
    pub fn split_swap(
        &mut self,
        turn: Turn<K>,
        slot: usize,
        snapshot: Head,
        taken: Taken,
    ) -> Result<Answer, Refusal>
        ensures { Follows (split_swap (held self.old) turn.number turn.seat slot snapshot taken.split taken.separator taken.frame taken.target) self.old self.new result }
    {
        if self.slot(slot)?.head != Some(snapshot) {
            self.give_back_split(taken);
            return Ok(self.goes(turn.lost(), Phase::RootRead));
        }
        let installed = self.record(taken.split)?.delta.attributes;
        self.set_slot(slot, Some(Head::Record(taken.split)));
        let post = Phase::PostRead {
            separator: taken.separator,
            depth: installed.depth,
            size: installed.size,
        };
        Ok(self.goes(turn.won(), post))
    }

    /// Post read: the separator is filled on the root's head.
    // The numbers of a phase stand one by one, here and in post swap: what a split took is a struct, since it is passed
    // on whole and given back whole, but each of these goes its own way.
    pub fn post_read(
        &mut self,
        turn: Turn<K>,
        separator: usize,
        depth: usize,
        size: usize,
    ) -> Result<Answer, Refusal>
        ensures { Follows (post_read (held self.old) turn.number turn.seat separator depth size) self.old self.new result }
    {
        let snapshot = self.head_in(0)?;
        let root = self.old_chain(0, snapshot)?;
        let posted = self.record(separator)?.delta;
        let delta = delta_on(Kind::Separator, posted.key, posted.value, &root)?;
        self.set_record(separator, Record { free: false, delta });
        let swap = Phase::PostSwap {
            snapshot,
            separator,
            depth,
            size,
        };
        Ok(self.goes(turn, swap))
    }

    /// Post swap: the separator becomes the root's head, unless the root has changed since the post read.
    pub fn post_swap(
        &mut self,
        turn: Turn<K>,
        snapshot: Head,
        separator: usize,
        depth: usize,
        size: usize,
    ) -> Result<Answer, Refusal>
        ensures { Follows (post_swap (held self.old) turn.number turn.seat snapshot separator depth size) self.old self.new result }
    {
        if self.slot(0)?.head != Some(snapshot) {
            let post = Phase::PostRead {
                separator,
                depth,
                size,
            };
            return Ok(self.goes(turn.lost(), post));
        }
        self.set_slot(0, Some(Head::Record(separator)));
        let ending = Ending {
            end: End::Split,
            value: 0,
            depth,
            size,
        };
        Ok(self.ends(turn.won(), ending))
    }
}
