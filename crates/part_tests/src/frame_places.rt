//! Search in a frame.

use crate::samples::{expiry, token};
use keys::token::Token;
use nodes::halving::{Found, locate};
use nodes::items::{Items, Separators};

#[test]
fn locate_tells_the_place(rt: HostRuntime) {
    let keys = [token(10), token(20), token(30)];
    let at = |found, place| Found { found, place };
    assert_eq!(rt; locate(&keys, &token(20)), at(true, 1));
    assert_eq!(rt; locate(&keys, &token(25)), at(false, 2));
    assert_eq!(rt; locate(&keys, &token(40)), at(false, 3));
}

#[test]
fn find_reads_its_frame(rt: HostRuntime) {
    let mut keys = [expiry(0); 128];
    let mut values: [u64; 128] = [0; 128];
    keys[64] = expiry(10);
    keys[65] = expiry(20);
    values[64] = 1;
    values[65] = 2;
    let items = Items {
        keys: &keys,
        values: &values,
    };
    let twenty = expiry(20);
    assert_eq!(rt; items.find(1, 2, &twenty), Some(Some(2)));
    assert_eq!(rt; items.find(1, 2, &expiry(15)), Some(None));
    assert_eq!(rt; items.find(1, 1, &twenty), Some(None));
    assert_eq!(rt; items.find(2, 2, &twenty), None);
    assert_eq!(rt; items.find(1, 65, &twenty), None);
}

/// The first slot and the slot of the best separator, if there is one.
fn slots(found: Option<Separators<Token>>) -> Option<(u64, Option<u64>)> {
    found.map(|found| (found.first, found.best.map(|item| item.value)))
}

#[test]
fn separators_leave_the_first_key_uncompared(rt: HostRuntime) {
    let mut keys = [token(0); 64];
    let mut values: [u64; 64] = [0; 64];
    keys[0] = token(99);
    keys[1] = token(10);
    keys[2] = token(20);
    values[0] = 4;
    values[1] = 5;
    values[2] = 6;
    let items = Items {
        keys: &keys,
        values: &values,
    };
    let between = items.separators(0, 3, &token(15));
    assert_eq!(rt; slots(between), Some((4, Some(5))));
    let equal = items.separators(0, 3, &token(20));
    assert_eq!(rt; slots(equal), Some((4, Some(6))));
    let before = items.separators(0, 3, &token(5));
    assert_eq!(rt; slots(before), Some((4, None)));
    let in_none = items.separators(0, 0, &token(5));
    assert_eq!(rt; slots(in_none), None);
}
