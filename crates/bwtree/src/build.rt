//! Build: the frame of a consolidation, and all that a split takes.

ghost use Rattle.std.specs.Prelude.{◌≡◌, ◌==◌, nat_lt};
ghost use Rattle.bwtree.specs.Builds.{build as build_rule, consolidation, frame_filled, split_built, split_taken, splitting};
ghost use Rattle.bwtree.specs.Deltas.{consolidated_of, upper_of};
ghost use Rattle.bwtree.specs.Lent.{Fills, Follows, held};
ghost use Rattle.nodes.specs.Build.{built};

use crate::answer::{Answer, End, Ending, Refusal};
use crate::delta::{cut, delta_on};
use crate::memory::LentMemory;
use crate::old_chain::OldChain;
use crate::seat::{Cursors, Phase, Request};
use crate::taking::Taken;
use crate::turn::Turn;
use keys::order::Ordered;
use nodes::items::ItemsMut;
use nodes::node::{Attributes, Frame, FrameState, Head, Kind, Level, Record};

/// The attributes of a frame that replaces a chain.
fn consolidated_of<K: Copy>(chain: &Attributes<K>) -> Attributes<K>
    ensures { result ≡ consolidated_of chain.now }
{
    Attributes { depth: 0, ..*chain }
}

/// The attributes of a split's new leaf.
fn upper_of<K: Copy>(key: K, leaf: &Attributes<K>) -> Attributes<K>
    ensures { result ≡ upper_of key leaf.now }
{
    Attributes {
        low: Some(key),
        size: leaf.size - cut(leaf.size),
        depth: 0,
        ..*leaf
    }
}

impl<K: Copy> LentMemory<'_, K> {
    /// The new leaf of a split, whose upper part has this first key, gets its slot, and both records are filled.
    fn fill_split(
        &mut self,
        turn: Turn<K>,
        old: &OldChain<K>,
        taken: Taken,
        key: K,
    ) -> Result<Answer, Refusal>
        ensures { Follows (split_taken (held self.old) turn.number turn.seat old.now.slot old.now.head old.now.attributes taken.frame taken.target taken.split taken.separator key) self.old self.new result }
    {
        let Taken {
            split,
            separator,
            frame,
            target,
        } = taken;
        // usize and u64 have no From, and both have 64 bits.
        let link = target as u64;
        let split_delta = delta_on(Kind::Split, key, link, old)?;
        let separator_delta = delta_on(Kind::Separator, key, link, old)?;
        self.set_frame(
            frame,
            Frame {
                state: FrameState::Used,
                attributes: upper_of(key, &old.attributes),
            },
        );
        self.set_slot(target, Some(Head::Frame(frame)));
        self.set_record(
            split,
            Record {
                free: false,
                delta: split_delta,
            },
        );
        self.set_record(
            separator,
            Record {
                free: false,
                delta: separator_delta,
            },
        );
        let cursors = Cursors {
            records: separator,
            frames: frame,
            slots: target,
        };
        let swap = Phase::SplitSwap {
            slot: old.slot,
            snapshot: old.head,
            split,
            separator,
            frame,
            target,
        };
        Ok(self.goes(turn.taking(cursors), swap))
    }
}

impl<K: Ordered> LentMemory<'_, K> {
    /// Fills a frame with the replay of a head, from item `first` on.
    fn fill(&mut self, level: Level, head: Head, first: usize, frame: usize) -> Result<(), Refusal>
        ensures { Fills (built K.Ordered.before level (held self.old).records (held self.old).frames (held self.old).keys (held self.old).values head first frame) self.old self.new result }
    {
        // Bound first: the check does not follow a field that holds a slice and is lent on to be read.
        let records: &mut [Record<K>] = self.records;
        let frames: &mut [Frame<K>] = self.frames;
        let mut items = ItemsMut {
            keys: &mut *self.keys,
            values: &mut *self.values,
        };
        let built = items.build(records, frames, level, head, first, frame);
        built.ok_or(Refusal::Impossible)
    }

    /// A consolidation fills the frame that it took with the replay of its snapshot, and swap follows.
    fn fill_frame(
        &mut self,
        turn: Turn<K>,
        old: &OldChain<K>,
        level: Level,
        number: usize,
    ) -> Result<Answer, Refusal>
        ensures { Follows (frame_filled K.Ordered.before (held self.old) turn.number turn.seat old.now.slot old.now.head old.now.attributes level number) self.old self.new result }
    {
        self.fill(level, old.head, 0, number)?;
        self.set_frame(
            number,
            Frame {
                state: FrameState::Used,
                attributes: consolidated_of(&old.attributes),
            },
        );
        let cursors = Cursors {
            frames: number,
            ..turn.seat.cursors
        };
        let swap = Phase::Swap {
            slot: old.slot,
            snapshot: old.head,
            fresh: Head::Frame(number),
        };
        Ok(self.goes(turn.taking(cursors), swap))
    }

    /// Build for a consolidation: it takes a frame, unless its chain is a frame alone.
    fn consolidate(
        &mut self,
        turn: Turn<K>,
        old: &OldChain<K>,
        level: Level,
    ) -> Result<Answer, Refusal>
        ensures { Follows (consolidation K.Ordered.before (held self.old) turn.number turn.seat old.now.slot old.now.head old.now.attributes level (old.now.attributes.depth == 0)) self.old self.new result }
    {
        if old.attributes.depth == 0 {
            return Ok(self.ends(turn, Ending::on(End::Tidy, 0, &old.attributes)));
        }
        // Not `?`: an operation that ends has an answer, and `?` would leave with a refusal.
        let Some(number) = self.free_frame(turn.seat.cursors) else {
            return Ok(self.ends(turn, Ending::on(End::NoFrame, 0, &old.attributes)));
        };
        self.fill_frame(turn, old, level, number)
    }

    /// The upper part of a leaf goes into the frame that the split took; its first key is the split key.
    fn build_split(
        &mut self,
        turn: Turn<K>,
        old: &OldChain<K>,
        taken: Taken,
    ) -> Result<Answer, Refusal>
        ensures { Follows (split_built K.Ordered.before (held self.old) turn.number turn.seat old.now.slot old.now.head old.now.attributes taken.frame taken.target taken.split taken.separator) self.old self.new result }
    {
        let place = self.start(taken.frame)?;
        self.fill(Level::Leaf, old.head, cut(old.attributes.size), taken.frame)?;
        let key = self.key(place)?;
        self.fill_split(turn, old, taken, key)
    }

    /// Build for a split: it takes a frame and a slot for the new leaf, and two records.
    fn split(&mut self, turn: Turn<K>, old: &OldChain<K>) -> Result<Answer, Refusal>
        ensures { Follows (splitting K.Ordered.before (held self.old) turn.number turn.seat old.now.slot old.now.head old.now.attributes (nat_lt old.now.attributes.size 2)) self.old self.new result }
    {
        if old.attributes.size < 2 {
            return Ok(self.ends(turn, Ending::on(End::Small, 0, &old.attributes)));
        }
        match self.take_for_split(turn.seat.cursors) {
            Ok(taken) => self.build_split(turn, old, taken),
            Err(end) => Ok(self.ends(turn, Ending::on(end, 0, &old.attributes))),
        }
    }

    /// Build: what a consolidation or a split prepares from its snapshot.
    pub fn build(&mut self, turn: Turn<K>, slot: usize, snapshot: Head) -> Result<Answer, Refusal>
        ensures { Follows (build_rule K.Ordered.before (held self.old) turn.number turn.seat slot snapshot) self.old self.new result }
    {
        let old = self.old_chain(slot, snapshot)?;
        match turn.seat.request {
            Request::Consolidate(_) => self.consolidate(turn, &old, Level::Leaf),
            Request::ConsolidateRoot => self.consolidate(turn, &old, Level::Root),
            Request::Split(_) => self.split(turn, &old),
            Request::Lookup(_) | Request::Insert(_, _) | Request::Delete(_) => {
                Err(Refusal::Impossible)
            }
        }
    }
}
