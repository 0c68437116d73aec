//! What is taken and freed, and the waits before.

use crate::samples::{expiry, frame, record};
use keys::expiry::Expiry;
use nodes::node::{Frame, FrameState, Head, Kind, Record, Slot};
use pool::free::{free_chain, next_free, other_free};
use pool::waits::{leave, retire};

const EMPTY: Slot = Slot { head: None };

const FILLED: Slot = Slot {
    head: Some(Head::Frame(0)),
};

#[test]
fn next_free_goes_on_from_the_cursor(rt: HostRuntime) {
    let slots = [EMPTY, FILLED, EMPTY, FILLED];
    assert_eq!(rt; next_free(&slots, 0), Some(0));
    assert_eq!(rt; next_free(&slots, 1), Some(2));
    assert_eq!(rt; next_free(&slots, 2), Some(2));
    assert_eq!(rt; next_free(&slots, 3), Some(0), "it wraps");
    assert_eq!(rt; next_free(&slots, 9), Some(0), "a cursor past the end");
    assert_eq!(rt; next_free(&[FILLED, FILLED], 1), None);
    assert_eq!(rt; next_free(&slots[0..0], 0), None);
}

#[test]
fn other_free_is_another(rt: HostRuntime) {
    let slots = [EMPTY, FILLED, EMPTY, FILLED];
    assert_eq!(rt; other_free(&slots, 0), Some(2));
    assert_eq!(rt; other_free(&slots, 2), Some(0));
    assert_eq!(rt; other_free(&slots, 9), Some(0));
    assert_eq!(rt; other_free(&slots[0..2], 0), None);
}

/// A record of an expiry key on this head.
fn on(next: Head) -> Record<Expiry> {
    record(Kind::Insertion, expiry(1), 1, next, 1, 1)
}

/// A chain of three records on a frame, and a fourth record on this head.
fn three_on_a_frame(fourth: Head) -> [Record<Expiry>; 4] {
    [
        on(Head::Frame(0)),
        on(Head::Record(0)),
        on(Head::Record(1)),
        on(fourth),
    ]
}

/// Which of the four are free.
fn free_among(records: &[Record<Expiry>; 4]) -> [bool; 4] {
    records.map(|record| record.free)
}

/// What is free once so many are freed from a head on.
fn freed(fourth: Head, head: Head, count: usize) -> [bool; 4] {
    let mut records = three_on_a_frame(fourth);
    free_chain(&mut records, head, count);
    free_among(&records)
}

#[test]
fn free_chain_frees_down_to_its_end(rt: HostRuntime) {
    let frame = Head::Frame(0);
    assert_eq!(rt;
        freed(frame, Head::Record(2), 9),
        [true, true, true, false],
        "it stops at the frame"
    );
    assert_eq!(rt;
        freed(frame, Head::Record(2), 2),
        [false, true, true, false],
        "it stops at its count"
    );
    assert_eq!(rt;
        freed(Head::Record(4), Head::Record(3), 9),
        [false, false, false, true],
        "it stops at a number out of range"
    );
    assert_eq!(rt;
        freed(Head::Record(3), Head::Record(3), 9),
        [false, false, false, true],
        "it ends on a cycle"
    );
    assert_eq!(rt; freed(frame, frame, 9), [false, false, false, false]);
}

#[test]
fn a_freed_record_is_taken_next(rt: HostRuntime) {
    let mut records = three_on_a_frame(Head::Frame(0));
    assert_eq!(rt; next_free(&records, 0), None);
    free_chain(&mut records, Head::Record(2), 1);
    assert_eq!(rt; next_free(&records, 0), Some(2));
    assert!(rt;
        records[2].delta.value == 1,
        "a freed record keeps its delta"
    );
}

/// Whether a frame waits with its chain.
fn waits(frame: &Frame<Expiry>) -> bool {
    matches!(frame.state, FrameState::Waiting { .. })
}

#[test]
fn a_chain_that_waits_for_one_seat(rt: HostRuntime) {
    let mut records = three_on_a_frame(Head::Frame(1));
    let mut frames = [frame(0), frame(0)];
    retire(
        &mut frames,
        0,
        Head::Record(1),
        2,
        [false, true, false, false],
    );
    assert!(rt; waits(&frames[0]));
    leave(&mut records, &mut frames, 0);
    assert!(rt; waits(&frames[0]), "not the seat it waits for");
    assert_eq!(rt; free_among(&records), [false, false, false, false]);
    leave(&mut records, &mut frames, 1);
    assert_eq!(rt; frames[0].state, FrameState::Free);
    assert_eq!(rt; frames[1].state, FrameState::Used);
    assert_eq!(rt; free_among(&records), [true, true, false, false]);
    assert_eq!(rt; next_free(&frames, 1), Some(0));
}

#[test]
fn a_chain_that_waits_for_two_seats(rt: HostRuntime) {
    let mut records = three_on_a_frame(Head::Frame(1));
    let mut frames = [frame(0), frame(0)];
    retire(
        &mut frames,
        0,
        Head::Record(2),
        3,
        [true, false, false, true],
    );
    leave(&mut records, &mut frames, 3);
    assert!(rt; waits(&frames[0]));
    assert_eq!(rt; free_among(&records), [false, false, false, false]);
    leave(&mut records, &mut frames, 0);
    assert_eq!(rt; frames[0].state, FrameState::Free);
    assert_eq!(rt; free_among(&records), [true, true, true, false]);
}

#[test]
fn nothing_is_freed_twice(rt: HostRuntime) {
    let mut records = three_on_a_frame(Head::Frame(1));
    let mut frames = [frame(0), frame(0)];
    retire(
        &mut frames,
        0,
        Head::Record(2),
        3,
        [true, false, false, false],
    );
    leave(&mut records, &mut frames, 0);
    records[1].free = false;
    frames[0].state = FrameState::Used;
    leave(&mut records, &mut frames, 0);
    assert_eq!(rt;
        free_among(&records),
        [true, false, true, false],
        "taken again, it stays"
    );
    assert_eq!(rt; frames[0].state, FrameState::Used);
}
