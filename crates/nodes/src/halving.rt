ghost use Rattle.std.specs.Prelude.{◌≡◌, ◌<◌, ◌≤◌, true, length};
ghost use Rattle.keys.specs.Order.{Ascending};
ghost use Rattle.nodes.specs.Build.{Kept};
ghost use Rattle.nodes.specs.Frames.{found_in_frame, holds, not_after, rank, separators_in_frame};
ghost use Rattle.nodes.specs.Halving.{Parts};

use crate::items::{Items, PLACES, Separators};
use keys::order::Ordered;

/// Where a key stands among keys that ascend: how many stand before it, and whether it comes next.
// A pair, not an Option: where the key is not found its place counts too.
#[derive(Clone, Copy, Debug, PartialEq, Eq)]
pub struct Found {
    pub found: bool,
    pub place: usize,
}

/// A place between a key that stands before k and one that does not, found by halving.
// Not `partition_point`, whose clauses say of keys in no order only that the place lies in range, and which compares more keys
// in a short frame.
fn parting<K: Ordered>(keys: &[K], k: &K) -> usize
    ensures { Parts K.Ordered.before keys.now k.now result }
{
    let mut low = 0;
    let mut high = keys.len();
    while low < high {
        let middle = low + (high - low) / 2;
        if keys[middle].stands_before(k) {
            low = middle + 1;
        } else {
            high = middle;
        }
    }
    low
}

/// Where a key stands among keys that ascend.
pub fn locate<K: Ordered>(keys: &[K], k: &K) -> Found
    ensures within { result.place ≤ length keys.now }
    ensures inside { result.found ≡ true → result.place < length keys.now }
    ensures place { Ascending K.Ordered.before keys.now → result.place ≡ rank K.Ordered.before k.now keys.now }
    ensures found { Ascending K.Ordered.before keys.now → result.found ≡ holds K.Ordered.before k.now keys.now }
{
    let place = parting(keys, k);
    let found = keys.get(place).is_some_and(|other| !k.stands_before(other));
    Found { found, place }
}

/// How many keys do not stand after a key, among keys that ascend.
fn not_after<K: Ordered>(keys: &[K], k: &K) -> usize
    ensures within { result ≤ length keys.now }
    ensures count { Ascending K.Ordered.before keys.now → result ≡ not_after K.Ordered.before k.now keys.now }
{
    let Found { found, place } = locate(keys, k);
    place + usize::from(found)
}

impl<K: Ordered> Items<'_, K> {
    /// The value of a key among the items of a frame; None where the frame lies out of range.
    // Two Options: a frame out of range, and a key that is not there.
    pub fn find(&self, frame: usize, size: usize, k: &K) -> Option<Option<u64>>
        ensures { Kept (found_in_frame K.Ordered.before k.now self.now.keys.now self.now.values.now frame size) result }
    {
        let from = self.start(frame)?;
        if size > PLACES {
            return None;
        }
        let spot = locate(&self.keys[from..from + size], k);
        Some(spot.found.then(|| self.values[from + spot.place]))
    }

    /// What the items of a root's frame say of a key; None where the frame lies out of range or has no item.
    pub fn separators(&self, frame: usize, size: usize, k: &K) -> Option<Separators<K>>
        ensures { Kept (separators_in_frame K.Ordered.before k.now self.now.keys.now self.now.values.now frame size) result }
    {
        let from = self.start(frame)?;
        if size == 0 || size > PLACES {
            return None;
        }
        let others = from + 1;
        let count = not_after(&self.keys[others..from + size], k);
        let best = self.before(others, others + count);
        Some(Separators {
            first: self.values[from],
            best,
        })
    }
}
