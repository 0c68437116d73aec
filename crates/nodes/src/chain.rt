ghost use Rattle.std.specs.Prelude.{◌≡◌};
ghost use Rattle.std.specs.List.{fold};
ghost use Rattle.std.specs.Iterator.{YieldsFirstRef, item_count};
ghost use Rattle.nodes.specs.Chains.{attributes_of, deltas_of, frame_under};

use crate::node::{Attributes, Delta, Frame, Head, Record};

/// The records from a head down, at most `depth` of them; it yields their deltas, the newest first.
// No equality: a view of lent memory is never compared.
#[derive(Clone, Copy)]
pub struct Chain<'a, K> {
    pub records: &'a [Record<K>],
    pub head: Head,
    pub depth: usize,
}

impl<'a, K: Copy> Iterator for Chain<'a, K> {
    type Item = &'a Delta<K>;

    ghost next_gives = { YieldsFirstRef deltas_of };

    ghost remaining = { item_count deltas_of };

    fn next(&mut self) -> Option<&'a Delta<K>> {
        let Head::Record(number) = self.head else {
            return None;
        };
        let left = self.depth.checked_sub(1)?;
        let delta = &self.records.get(number)?.delta;
        self.head = delta.next;
        self.depth = left;
        Some(delta)
    }
}

impl<'a, K: Copy> Chain<'a, K> {
    /// The head that the last record stands on.
    fn bottom(self) -> Head
        ensures { result ≡ fold (λ _ delta. delta.next) self.entry.head (deltas_of self.entry) }
    {
        let head = self.head;
        self.fold(head, |_, delta| delta.next)
    }
}

/// The attributes of the chain that a head names.
// The two pools are lent one by one: most functions need one alone.
pub fn attributes<K: Copy>(
    records: &[Record<K>],
    frames: &[Frame<K>],
    head: Head,
) -> Option<Attributes<K>>
    ensures { result ≡ attributes_of records.now frames.now head }
{
    match head {
        Head::Record(number) => records.get(number).map(|record| record.delta.attributes),
        Head::Frame(number) => frames.get(number).map(|frame| frame.attributes),
    }
}

/// The frame under a head, at most `depth` records down.
// The fields of a chain, one by one: the callers have a head and its depth, and no chain yet.
#[tactic(auto, using(crate::proofs::Passing::frame_fold))]
pub fn frame_under<K: Copy>(records: &[Record<K>], head: Head, depth: usize) -> Option<usize>
    ensures { result ≡ frame_under depth records.now head }
{
    let chain = Chain {
        records,
        head,
        depth,
    };
    match chain.bottom() {
        Head::Record(_) => None,
        Head::Frame(number) => Some(number),
    }
}
