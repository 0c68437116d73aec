//! Replay of a chain into a frame.

use crate::samples::{expiry, frame, record};
use keys::expiry::Expiry;
use nodes::items::ItemsMut;
use nodes::node::{Head, Kind, Level, Record};
use std::process::Abort;

/// Over a frame of 10, 20 and 30: 25 is put in, 20 taken out, all from 30 on split off, and 5 put in.
fn leaf_chain() -> [Record<Expiry>; 4] {
    [
        record(Kind::Insertion, expiry(25), 7, Head::Frame(0), 4, 1),
        record(Kind::Deletion, expiry(20), 2, Head::Record(0), 3, 2),
        record(Kind::Split, expiry(30), 9, Head::Record(1), 2, 3),
        record(Kind::Insertion, expiry(5), 8, Head::Record(2), 3, 4),
    ]
}

/// The keys and values of two frames, of which the first has three items.
// Keys beside values, as they are lent. No equality: the tests compare parts.
#[derive(Clone, Copy)]
struct TwoFrames {
    keys: [Expiry; 128],
    values: [u64; 128],
}

impl TwoFrames {
    /// The first frame has these keys, with the values 1, 2 and 3.
    fn with(first: u32, second: u32, third: u32) -> TwoFrames {
        let mut keys = [expiry(0); 128];
        let mut values = [0; 128];
        for (at, (number, value)) in [(first, 1), (second, 2), (third, 3)]
            .into_iter()
            .enumerate()
        {
            keys[at] = expiry(number);
            values[at] = value;
        }
        TwoFrames { keys, values }
    }

    /// The second frame becomes the replay of a head over the first, from item `from` on.
    fn build(
        &mut self,
        records: &[Record<Expiry>],
        level: Level,
        head: Head,
        from: usize,
    ) -> Option<()> {
        let frames = [frame(3), frame(0)];
        let TwoFrames { keys, values } = self;
        let mut items = ItemsMut { keys, values };
        items.build(records, &frames, level, head, from, 1)
    }

    /// The number and the value of the item at a place.
    fn at(&self, place: usize) -> Option<(u32, u64)> {
        let key = self.keys.get(place)?;
        let value = self.values.get(place)?;
        Some((key.second, *value))
    }

    /// The items from a place on are keys of these numbers with these values.
    fn check(&self, rt: &impl Abort, from: usize, items: &[(u32, u64)]) {
        for (place, item) in items.iter().enumerate() {
            assert_eq!(rt; self.at(from.saturating_add(place)), Some(*item));
        }
    }
}

#[test]
fn build_replays_a_leaf(rt: HostRuntime) {
    let mut items = TwoFrames::with(10, 20, 30);
    let built = items.build(&leaf_chain(), Level::Leaf, Head::Record(3), 0);
    assert!(rt; built.is_some());
    items.check(&rt, 64, &[(5, 8), (10, 1), (25, 7), (0, 0)]);
    items.check(&rt, 0, &[(10, 1), (20, 2), (30, 3), (0, 0)]);
}

#[test]
fn build_leaves_out_the_lower_part(rt: HostRuntime) {
    let mut items = TwoFrames::with(10, 20, 30);
    let built = items.build(&leaf_chain(), Level::Leaf, Head::Record(3), 1);
    assert!(rt; built.is_some());
    items.check(&rt, 64, &[(10, 1), (25, 7), (0, 0)]);
}

#[test]
fn build_replays_a_root(rt: HostRuntime) {
    let records = [
        record(Kind::Separator, expiry(10), 6, Head::Frame(0), 4, 1),
        record(Kind::Separator, expiry(40), 7, Head::Record(0), 5, 2),
    ];
    let mut items = TwoFrames::with(99, 20, 30);
    let built = items.build(&records, Level::Root, Head::Record(1), 0);
    assert!(rt; built.is_some());
    items.check(
        &rt,
        64,
        &[(99, 1), (10, 6), (20, 2), (30, 3), (40, 7), (0, 0)],
    );
}

/// Whether a chain with this head is built into the second frame.
fn builds(records: &[Record<Expiry>], head: Head) -> bool {
    TwoFrames::with(10, 20, 30)
        .build(records, Level::Leaf, head, 0)
        .is_some()
}

#[test]
fn build_says_no_where_there_is_no_chain(rt: HostRuntime) {
    let records = leaf_chain();
    assert!(rt; builds(&records, Head::Record(3)));
    assert!(rt; !builds(&records, Head::Record(4)));
    assert!(rt; !builds(&records, Head::Frame(2)));
    let cycle = [record(Kind::Deletion, expiry(10), 1, Head::Record(0), 2, 1)];
    assert!(rt; !builds(&cycle, Head::Record(0)));
}
