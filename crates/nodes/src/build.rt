ghost use Rattle.std.specs.Prelude.{◌≡◌, ◌+◌, ◌≤◌, length, IfSome, is_some};
ghost use Rattle.nodes.specs.Build.{Builds, Promised, SameItems, built, carried_out, source_of};
ghost use Rattle.nodes.specs.Frames.{place_of};
ghost use Rattle.nodes.specs.Merge.{merged_at, merged_root};

use crate::chain::{Chain, attributes, frame_under};
use crate::items::{Items, ItemsMut, PLACES};
use crate::merge::Merge;
use crate::node::{Frame, Head, Item, Level, Record};
use keys::order::Ordered;

/// Where the items of a head come from: the places of the frame under it, and how many records and items it has.
#[derive(Clone, Copy, Debug, PartialEq, Eq)]
pub struct Source {
    // Read by the contract alone, which tells by it whether the frame is the one that is filled.
    pub frame: usize,
    /// The frame's first place, and how many items the frame has.
    pub start: usize,
    pub size: usize,
    /// How many records stand above the frame, and how many items the replay has.
    pub depth: usize,
    pub count: usize,
}

impl<K: Ordered> Items<'_, K> {
    /// Where the items of a head come from; None where a number lies out of range.
    fn source_of(&self, records: &[Record<K>], frames: &[Frame<K>], head: Head) -> Option<Source>
        ensures source { result ≡ source_of records.now frames.now self.now.keys.now self.now.values.now head }
        ensures room { IfSome result (λ s. (s.start ≡ place_of s.frame) × (s.size ≤ 64) × (s.start + 64 ≤ length self.now.keys.now)) }
    {
        let own = attributes(records, frames, head)?;
        let frame = frame_under(records, head, own.depth)?;
        let base = attributes(records, frames, Head::Frame(frame))?;
        let start = self.start(frame)?;
        if base.size > PLACES {
            return None;
        }
        Some(Source {
            frame,
            start,
            size: base.size,
            depth: own.depth,
            count: own.size,
        })
    }
}

// Each build answers an Option of nothing, so that ? passes a no on.
impl<K: Ordered> ItemsMut<'_, K> {
    /// Fills a whole root: the items past the first are merged, then the first one is placed.
    fn fill_root(&mut self, merge: Merge<K>, first: Item<K>) -> Option<()>
        ensures same { SameItems self.old self.new }
        ensures filled { Builds (carried_out (merged_root K.Ordered.before merge.entry self.old first)) self.new result }
    {
        if merge.floor >= merge.top {
            return None;
        }
        self.fill(Merge {
            floor: merge.floor + 1,
            ..merge
        });
        self.put(merge.floor, first);
        Some(())
    }

    /// Fills the places of a merge with the last items of the replay at a level.
    // A flag of the rule: whether the first item is placed too.
    fn fill_level(&mut self, merge: Merge<K>, level: Level, whole: bool) -> Option<()>
        ensures same { SameItems self.old self.new }
        ensures filled { Builds (merged_at K.Ordered.before level merge.entry self.old whole) self.new result }
    {
        match level {
            Level::Leaf => self.fill(merge),
            Level::Root => {
                if merge.start >= merge.stop {
                    return None;
                }
                let others = Merge {
                    start: merge.start + 1,
                    ..merge
                };
                if whole {
                    let first = self.read().at(merge.start)?;
                    self.fill_root(others, first)?;
                } else {
                    self.fill(others);
                }
            }
        }
        Some(())
    }

    /// Fills the places of the frame `target` with the replay of a head, from item `first` on, the last item first; None
    /// where a number lies out of range.
    pub fn build(
        &mut self,
        records: &[Record<K>],
        frames: &[Frame<K>],
        level: Level,
        head: Head,
        first: usize,
        target: usize,
    ) -> Option<()>
        ensures same { SameItems self.old self.new }
        ensures filled { Builds (carried_out (built K.Ordered.before level records.now frames.now self.old.keys.now self.old.values.now head first target)) self.new result }
    {
        let items = self.read();
        let source = items.source_of(records, frames, head)?;
        let floor = items.start(target)?;
        if source.count > PLACES {
            return None;
        }
        let chain = Chain {
            records,
            head,
            depth: source.depth,
        };
        let merge = Merge {
            chain,
            start: source.start,
            stop: source.start + source.size,
            floor,
            top: floor + source.count.saturating_sub(first),
        };
        self.fill_level(merge, level, first == 0)
    }
}

/// Builds in two arrays: they hold what the rule says, wherever it gives an outcome.
// For an owner of both, as of vectors in a struct: there the check does not find what a build by an ItemsMut made of them.
pub fn build_on_arrays<K: Ordered>(
    records: &[Record<K>],
    frames: &[Frame<K>],
    keys: &mut [K],
    values: &mut [u64],
    level: Level,
    head: Head,
    first: usize,
    target: usize,
) -> Option<()>
    ensures { Promised (carried_out (built K.Ordered.before level records.now frames.now keys.old values.old head first target)) (record { arrays = record { keys = keys.new; values = values.new }; answer = is_some result }) }
{
    let mut items = ItemsMut { keys, values };
    items.build(records, frames, level, head, first, target)
}
