//! Steps on memory that no index has written: each ends, with an answer of its rule or the refusal 15.

use crate::memory::{Memory, answers, phases, seat, stepped};
use crate::samples::{attributes, expiry, record};
use bwtree::answer::{Answer, Refusal};
use bwtree::seat::{Phase, Request};
use keys::expiry::Expiry;
use nodes::node::{Frame, FrameState, Head, Kind, Slot};
use std::process::Abort;

/// The slots in use hold the head and all records stand on it, and all chains claim this size and this depth. There
/// is a free slot, a free frame, and two free records, so that a build goes on to its chain.
fn nonsense(request: Request<Expiry>, head: Head, size: usize, depth: usize) -> Memory {
    let used = record(Kind::Insertion, expiry(1), 9, head, size, depth);
    let mut free = used;
    free.free = true;
    let attributes = attributes(size, depth);
    Memory {
        slots: [
            Slot { head: Some(head) },
            Slot { head: Some(head) },
            Slot { head: None },
        ],
        records: [used, used, free, free],
        frames: [
            Frame {
                state: FrameState::Used,
                attributes,
            },
            Frame {
                state: FrameState::Free,
                attributes,
            },
        ],
        keys: [expiry(1); 128],
        values: [9; 128],
        seats: [seat(request, Phase::RootRead); 4],
    }
}

// Letters, so that the answers of nine steps stand in one word of a table.
/// G for going, E for an ending, I for the refusal of an impossible memory, - for any other answer.
fn letter(answer: Result<Answer, Refusal>) -> u8 {
    match answer {
        Ok(Answer::Going) => b'G',
        Ok(Answer::Ended(_)) => b'E',
        Err(refusal) if u8::from(refusal) == 15 => b'I',
        _ => b'-',
    }
}

/// The letters of the nine steps on a memory of nonsense, with all numbers this one.
fn row(request: Request<Expiry>, head: Head, size: usize, depth: usize, number: usize) -> [u8; 9] {
    answers(&nonsense(request, head, size, depth), head, number).map(letter)
}

#[test]
fn foreign_memory_is_refused(rt: HostRuntime) {
    let key = expiry(2);
    let past = Head::Record(9);
    let cycle = Head::Record(0);
    let frame = Head::Frame(0);
    assert_eq!(rt;
        row(Request::Lookup(key), past, 1, 1, 1),
        *b"GIIIIIGIE",
        "a head out of range"
    );
    assert_eq!(rt;
        row(Request::Lookup(key), past, 1, 1, 9),
        *b"GIIIIIIIE",
        "all out of range"
    );
    assert_eq!(rt;
        row(Request::Consolidate(key), cycle, 1, 4, 1),
        *b"GGGGIEGGE",
        "a cycle"
    );
    assert_eq!(rt;
        row(Request::Split(key), frame, 65, 0, 1),
        *b"GIGIIEGGE",
        "a size above 64"
    );
    assert_eq!(rt;
        row(Request::Lookup(key), frame, 1, 0, 1),
        *b"GGGEIEGGE",
        "a lookup builds"
    );
    assert_eq!(rt;
        row(Request::Split(key), frame, 1, 0, 1),
        *b"GGGIEEGGE",
        "a split walks a leaf"
    );
    assert_eq!(rt;
        row(Request::ConsolidateRoot, frame, 1, 0, 1),
        *b"GIIIEEGGE",
        "no key"
    );
}

/// No step answers out of its rule on this memory, and `step` answers as the step that it leads to.
fn check_steps(rt: &impl Abort, memory: &Memory, head: Head, number: usize) {
    let direct = answers(memory, head, number);
    let phases = phases(head, number);
    for (answer, phase) in direct.into_iter().zip(phases) {
        assert_ne!(rt; letter(answer), b'-');
        assert_eq!(rt; letter(stepped(memory, 0, phase)), letter(answer));
    }
}

#[test]
fn every_step_ends_on_foreign_memory(rt: HostRuntime) {
    let key = expiry(2);
    let requests = [
        Request::Lookup(key),
        Request::Insert(key, 1),
        Request::Delete(key),
        Request::Consolidate(key),
        Request::Split(key),
        Request::ConsolidateRoot,
    ];
    let heads = [
        Head::Record(9),
        Head::Frame(9),
        Head::Record(0),
        Head::Frame(0),
    ];
    let sizes: [usize; 4] = [0, 64, 65, usize::MAX];
    for request in requests {
        for head in heads {
            for size in sizes {
                check_steps(&rt, &nonsense(request, head, size, 0), head, 1);
                check_steps(&rt, &nonsense(request, head, size, 100), head, 9);
            }
        }
    }
}

#[test]
fn step_refuses_a_seat_that_is_idle_or_not_there(rt: HostRuntime) {
    let memory = nonsense(Request::Lookup(expiry(1)), Head::Frame(0), 1, 0);
    assert_eq!(rt; stepped(&memory, 0, Phase::Idle).map_err(u8::from), Err(3));
    assert_eq!(rt; stepped(&memory, 4, Phase::Idle).map_err(u8::from), Err(1));
}
