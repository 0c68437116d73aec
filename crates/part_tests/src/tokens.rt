//! A step with token keys: the same functions serve every kind of key.

use crate::memory::seat;
use crate::samples::{attributes, record, token};
use bwtree::answer::Answer;
use bwtree::memory::LentMemory;
use bwtree::seat::{Phase, Request};
use bwtree::sizes::Sizes;
use nodes::node::{Frame, FrameState, Head, Kind, Slot};
use std::test::Fail;

#[test]
fn a_lookup_of_a_token_ends_at_its_record(rt: HostRuntime) -> Result<(), Fail> {
    let head = Head::Record(0);
    let mut slots = [Slot { head: Some(head) }; 2];
    let mut records = [record(Kind::Insertion, token(5), 9, Head::Frame(1), 1, 1)];
    let mut frames = [Frame {
        state: FrameState::Used,
        attributes: attributes(0, 0),
    }; 2];
    let mut keys = [token(5); 128];
    let mut values = [0; 128];
    let walk = Phase::LeafWalk {
        slot: 1,
        snapshot: head,
        at: head,
    };
    let mut seats = [seat(Request::Lookup(token(5)), walk); 4];
    let sizes = Sizes {
        slots: 2,
        records: 1,
        frames: 2,
    };
    let mut memory = LentMemory {
        slots: &mut slots,
        records: &mut records,
        frames: &mut frames,
        keys: &mut keys,
        values: &mut values,
        seats: &mut seats,
    };
    // With a text of its own: `?` would not say which part is another.
    let Ok(Answer::Ended(ending)) = memory.step(sizes, 0) else {
        return Err(Fail::new("the lookup did not end"));
    };
    assert_eq!(rt; ending.value, 9);
    Ok(())
}
