//! What a caller knows of its own arrays once it has lent them for a call or a build.

ghost use Rattle.std.specs.Prelude.{◌≡◌, is_some, length, nat_lt};

use bwtree::call::{Call, call_on_arrays};
use bwtree::seat::Seat;
use bwtree::sizes::Sizes;
use keys::order::Ordered;
use nodes::build::build_on_arrays;
use nodes::items::ItemsMut;
use nodes::node::{Frame, Head, Level, Record, Slot};

/// The six arrays of an index, as vectors of their owner.
pub struct OwnedArrays<K> {
    pub slots: Vec<Slot>,
    pub records: Vec<Record<K>>,
    pub frames: Vec<Frame<K>>,
    pub keys: Vec<K>,
    pub values: Vec<u64>,
    pub seats: Vec<Seat<K>>,
}

/// Makes a call on the owner's arrays, and reads a slot afterwards: no call makes an array shorter.
pub fn slot_after<K: Ordered>(
    arrays: &mut OwnedArrays<K>,
    sizes: Sizes,
    call: Call<K>,
    slot: usize,
) -> Option<Slot>
    ensures { is_some result ≡ nat_lt slot (length arrays.old.slots.items) }
{
    if slot >= arrays.slots.len() {
        return None;
    }
    // The answer is not asked for.
    let _answer = call_on_arrays(
        sizes,
        arrays.slots.as_mut_slice(),
        arrays.records.as_mut_slice(),
        arrays.frames.as_mut_slice(),
        arrays.keys.as_mut_slice(),
        arrays.values.as_mut_slice(),
        arrays.seats.as_mut_slice(),
        call,
    );
    Some(arrays.slots[slot])
}

/// Builds a leaf's frame in the owner's arrays, and reads a key afterwards: no build makes an array shorter.
pub fn key_after<K: Ordered>(
    arrays: &mut OwnedArrays<K>,
    head: Head,
    target: usize,
    place: usize,
) -> Option<K>
    ensures { is_some result ≡ nat_lt place (length arrays.old.keys.items) }
{
    if place >= arrays.keys.len() {
        return None;
    }
    build_on_arrays(
        arrays.records.as_slice(),
        arrays.frames.as_slice(),
        arrays.keys.as_mut_slice(),
        arrays.values.as_mut_slice(),
        Level::Leaf,
        head,
        0,
        target,
    );
    Some(arrays.keys[place])
}

/// Builds a leaf's frame: both arrays are as long as they were, whatever the build answers.
pub fn build_keeps_lengths<K: Ordered>(
    items: &mut ItemsMut<'_, K>,
    records: &[Record<K>],
    frames: &[Frame<K>],
    head: Head,
    target: usize,
) -> Option<()>
    ensures keys { length items.new.keys.now ≡ length items.old.keys.now }
    ensures values { length items.new.values.now ≡ length items.old.values.now }
{
    items.build(records, frames, Level::Leaf, head, 0, target)
}
