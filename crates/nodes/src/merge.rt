ghost use Rattle.std.specs.Prelude.{◌≡◌};
ghost use Rattle.nodes.specs.Build.{SameItems, arrays_of, Promised};
ghost use Rattle.nodes.specs.Chains.{deltas_of};
ghost use Rattle.nodes.specs.Merge.{Turned, chosen, from_chain, from_frame, keys_after, merged, place_after, receded, renewed, values_after};

use crate::chain::Chain;
use crate::items::ItemsMut;
use crate::node::Item;
use crate::scan::{Edit, Seen, fits, scan};
use keys::order::Ordered;

/// What is merged, and where it goes: the edits of a chain and the items at places `start` to `stop - 1`, into places
/// `floor` to `top - 1`.
// No equality: a view of lent memory is never compared.
#[derive(Clone, Copy)]
pub(crate) struct Merge<'a, K> {
    pub chain: Chain<'a, K>,
    pub start: usize,
    pub stop: usize,
    pub floor: usize,
    pub top: usize,
}

/// What a merge takes next: a key, its value or that it is gone, and whether it stands in the frame and in the chain.
// Two flags, not an enum: a key may stand in both, and each side moves on by its own flag.
#[derive(Clone, Copy, Debug, PartialEq, Eq)]
pub struct Pick<K> {
    pub key: K,
    pub value: Option<u64>,
    pub frame: bool,
    pub chain: bool,
}

/// How far down a merge has come: the place past the frame's next item, the place past the next one to fill, and what
/// the chain has next.
#[derive(Clone, Copy, Debug, PartialEq, Eq)]
pub struct Cursor<K> {
    pub frame: usize,
    pub target: usize,
    pub seen: Seen<K>,
}

/// The frame's item is taken.
fn take_item<K: Ordered>(item: Item<K>, limit: Option<K>) -> Pick<K>
    ensures { result ≡ from_frame K.Ordered.before item limit }
{
    Pick {
        key: item.key,
        value: fits(&item.key, limit).then_some(item.value),
        frame: true,
        chain: false,
    }
}

/// The chain's edit is taken, with the frame's item where that has its key.
fn take_edit<K: Ordered>(edit: Edit<K>, both: bool) -> Pick<K>
    ensures { result ≡ from_chain K.Ordered.before edit both }
{
    Pick {
        key: edit.key,
        value: edit.value,
        frame: both,
        chain: true,
    }
}

/// The greater of what the frame and the chain have next; of one key, the chain's.
fn choose<K: Ordered>(item: Option<Item<K>>, seen: Seen<K>) -> Option<Pick<K>>
    ensures { result ≡ chosen K.Ordered.before item seen.limit seen.next }
{
    match (item, seen.next) {
        (None, None) => None,
        (Some(item), None) => Some(take_item(item, seen.limit)),
        (None, Some(edit)) => Some(take_edit(edit, false)),
        (Some(item), Some(edit)) => {
            if edit.key.stands_before(&item.key) {
                Some(take_item(item, seen.limit))
            } else {
                Some(take_edit(edit, !item.key.stands_before(&edit.key)))
            }
        }
    }
}

/// One place down, if the frame's item was taken.
fn recede(at: usize, taken: bool) -> usize
    ensures { result ≡ receded at taken }
{
    at.saturating_sub(usize::from(taken))
}

/// A new pass over the chain, if its edit was taken.
// A flag, as the pick has one for each side.
fn renew<K: Ordered>(chain: Chain<K>, key: K, taken: bool, seen: Seen<K>) -> Seen<K>
    ensures { result ≡ renewed K.Ordered.before (deltas_of chain.entry) key taken seen }
{
    if taken { scan(chain, Some(key)) } else { seen }
}

impl<K: Ordered> ItemsMut<'_, K> {
    /// Places what was picked, if it has a value, before a place, down to `floor`; the next place.
    fn place(&mut self, floor: usize, at: usize, pick: Pick<K>) -> usize
        ensures same { SameItems self.old self.new }
        ensures next { result ≡ place_after floor at pick.value }
        ensures keys { self.new.keys.now ≡ keys_after self.old.keys.now floor at pick.key pick.value }
        ensures values { self.new.values.now ≡ values_after self.old.values.now floor at pick.value }
    {
        match pick.value {
            Some(value) if floor < at => {
                // By field: with a struct pattern over a generic key the function is left unproved.
                let key = pick.key;
                self.put(at - 1, Item { key, value });
                at - 1
            }
            _ => at,
        }
    }

    /// One turn of a merge.
    fn turn(&mut self, merge: Merge<K>, cursor: Cursor<K>) -> Option<Cursor<K>>
        ensures same { SameItems self.old self.new }
        ensures turned { Turned K.Ordered.before merge.entry cursor self.old self.new result }
    {
        let pick = choose(self.read().before(merge.start, cursor.frame), cursor.seen)?;
        let target = self.place(merge.floor, cursor.target, pick);
        Some(Cursor {
            frame: recede(cursor.frame, pick.frame),
            target,
            seen: renew(merge.chain, pick.key, pick.chain, cursor.seen),
        })
    }

    /// Fills the places of a merge from the last one down with the last items of the replay, the last one first.
    pub(crate) fn fill(&mut self, merge: Merge<K>)
        ensures same { SameItems self.old self.new }
        ensures filled { Promised (merged K.Ordered.before merge.entry self.old) (arrays_of self.new) }
    {
        let mut cursor = Cursor {
            frame: merge.stop,
            target: merge.top,
            seen: scan(merge.chain, None),
        };
        // No iterator: a turn writes the items that the next one reads.
        while merge.floor < cursor.target
            && let Some(next) = self.turn(merge, cursor)
        {
            cursor = next;
        }
    }
}
