ghost use Rattle.std.specs.Prelude.{◌≡◌, ◌+◌, ◌≤◌, length, slice_set, IfSome};
ghost use Rattle.nodes.specs.Build.{SameItems};
ghost use Rattle.nodes.specs.Frames.{item_at, item_before, place_of, start_of};

use crate::access::poke;
use crate::node::Item;

/// How many places a frame has in each item array.
pub const PLACES: usize = 64;

/// The two item arrays: each key stands beside the value at its place.
// Two arrays side by side, as the caller lends them. No equality: a view of lent memory is never compared.
#[derive(Clone, Copy)]
pub struct Items<'a, K> {
    pub keys: &'a [K],
    pub values: &'a [u64],
}

/// The two item arrays that the caller lends to be written.
// Each method that writes says SameItems: a caller learns from that what its own arrays hold.
#[derive(Drop)]
pub struct ItemsMut<'a, K> {
    pub keys: &'a mut [K],
    pub values: &'a mut [u64],
}

/// What a root's items say of a key.
#[derive(Clone, Copy, Debug, PartialEq, Eq)]
pub struct Separators<K> {
    /// The slot beside the separator without a key.
    pub first: u64,
    /// The last of the other items whose key does not stand after the key.
    pub best: Option<Item<K>>,
}

impl<K: Copy> Items<'_, K> {
    /// The first place of a frame, if the frame lies in both arrays.
    pub fn start(&self, frame: usize) -> Option<usize>
        ensures place { result ≡ start_of self.now.keys.now self.now.values.now frame }
        ensures room { IfSome result (λ p. (p ≡ place_of frame) × (p + 64 ≤ length self.now.keys.now) × (p + 64 ≤ length self.now.values.now)) }
    {
        let inside = frame < self.keys.len() / PLACES && frame < self.values.len() / PLACES;
        inside.then(|| PLACES * frame)
    }

    /// The item at a place, if the place lies in both arrays.
    pub fn at(&self, place: usize) -> Option<Item<K>>
        ensures { result ≡ item_at self.now.keys.now self.now.values.now place }
    {
        let key = self.keys.get(place).copied()?;
        let value = self.values.get(place).copied()?;
        Some(Item { key, value })
    }

    /// The item before a place, down to `start`.
    pub fn before(&self, start: usize, place: usize) -> Option<Item<K>>
        ensures { result ≡ item_before self.now.keys.now self.now.values.now start place }
    {
        // Not then: that would wrap the Option of `at` in another one.
        if start < place {
            self.at(place - 1)
        } else {
            None
        }
    }
}

impl<K: Copy> ItemsMut<'_, K> {
    /// The items as they are.
    pub fn read(&self) -> Items<'_, K>
        ensures keys { result.keys.now ≡ self.now.keys.now }
        ensures values { result.values.now ≡ self.now.values.now }
    {
        Items {
            keys: self.keys,
            values: self.values,
        }
    }

    /// Writes an item at a place; past an array's end nothing changes there.
    pub fn put(&mut self, place: usize, item: Item<K>)
        ensures same { SameItems self.old self.new }
        ensures keys { self.new.keys.now ≡ slice_set self.old.keys.now place item.key }
        ensures values { self.new.values.now ≡ slice_set self.old.values.now place item.value }
    {
        poke(self.keys, place, item.key);
        poke(self.values, place, item.value);
    }
}
