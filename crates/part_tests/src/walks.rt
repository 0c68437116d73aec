//! One step of a leaf walk at each kind of node.
// The tests take an answer apart with a text of their own: `?` would not say which part is another.

use crate::memory::{Memory, seat};
use crate::samples::{expiry, frame, record};
use bwtree::answer::{Answer, End, Refusal};
use bwtree::seat::{Phase, Request};
use bwtree::turn::Turn;
use keys::expiry::Expiry;
use nodes::node::{Head, Kind, Record, Slot};
use std::test::Fail;

/// A leaf in slot 1, over a frame of 10 and 30: 20 is put in, 10 taken out, all from 40 on split off; record 3 is free.
fn leaf() -> Memory {
    let mut free = record(Kind::Insertion, expiry(0), 0, Head::Frame(0), 0, 0);
    free.free = true;
    let mut keys = [expiry(0); 128];
    let mut values: [u64; 128] = [0; 128];
    keys[0] = expiry(10);
    keys[1] = expiry(30);
    values[0] = 1;
    values[1] = 3;
    Memory {
        slots: [
            Slot { head: None },
            Slot {
                head: Some(Head::Record(2)),
            },
            Slot { head: None },
        ],
        records: [
            record(Kind::Insertion, expiry(20), 7, Head::Frame(0), 3, 1),
            record(Kind::Deletion, expiry(10), 1, Head::Record(0), 2, 2),
            record(Kind::Split, expiry(40), 9, Head::Record(1), 2, 3),
            free,
        ],
        frames: [frame(2), frame(0)],
        keys,
        values,
        seats: [seat(Request::ConsolidateRoot, Phase::Idle); 4],
    }
}

/// One step of the first seat's walk on the leaf's chain.
fn walk(memory: &mut Memory, request: Request<Expiry>, at: Head) -> Result<Answer, Refusal> {
    let snapshot = Head::Record(2);
    let seat = seat(
        request,
        Phase::LeafWalk {
            slot: 1,
            snapshot,
            at,
        },
    );
    memory.seats[0] = seat;
    memory
        .lend()
        .leaf_walk(Turn { number: 0, seat }, 1, snapshot, at)
}

/// The value that a step found, absent where the key is missing.
fn found(answer: Result<Answer, Refusal>) -> Result<Option<u64>, Fail> {
    let Ok(Answer::Ended(ending)) = answer else {
        return Err(Fail::new("not ended"));
    };
    match ending.end {
        End::Found => Ok(Some(ending.value)),
        End::Missing => Ok(None),
        _ => Err(Fail::new("ended otherwise")),
    }
}

/// What a lookup learns at one node.
fn look(key: u32, at: Head) -> Result<Option<u64>, Fail> {
    let mut memory = leaf();
    found(walk(&mut memory, Request::Lookup(expiry(key)), at))
}

/// Where a lookup goes on after one node.
fn onward(key: u32, at: Head) -> Result<Head, Fail> {
    let mut memory = leaf();
    let Ok(Answer::Going) = walk(&mut memory, Request::Lookup(expiry(key)), at) else {
        return Err(Fail::new("not going"));
    };
    let Phase::LeafWalk { at, .. } = memory.seats[0].phase else {
        return Err(Fail::new("another phase"));
    };
    Ok(at)
}

#[test]
fn a_lookup_ends_where_its_key_is_decided(rt: HostRuntime) -> Result<(), Fail> {
    assert_eq!(rt; look(20, Head::Record(0))?, Some(7));
    assert_eq!(rt; look(10, Head::Record(1))?, None);
    assert_eq!(rt; look(30, Head::Frame(0))?, Some(3));
    assert_eq!(rt; look(20, Head::Frame(0))?, None);
    assert_eq!(rt; onward(30, Head::Record(2))?, Head::Record(1), "a split");
    assert_eq!(rt;
        onward(30, Head::Record(1))?,
        Head::Record(0),
        "another key's deletion"
    );
    assert_eq!(rt;
        onward(30, Head::Record(0))?,
        Head::Frame(0),
        "another key's insertion"
    );
    Ok(())
}

/// What a walk puts into the free record: its kind and value, on which record, and the size and depth then.
fn change(request: Request<Expiry>) -> Result<Record<Expiry>, Fail> {
    let mut memory = leaf();
    let Ok(Answer::Going) = walk(&mut memory, request, Head::Frame(0)) else {
        return Err(Fail::new("not going"));
    };
    let Phase::Swap {
        slot: 1,
        snapshot: Head::Record(2),
        fresh: Head::Record(3),
    } = memory.seats[0].phase
    else {
        return Err(Fail::new("another phase"));
    };
    Ok(memory.records[3])
}

#[test]
fn a_change_takes_a_record_and_fills_it(rt: HostRuntime) -> Result<(), Fail> {
    let put = change(Request::Insert(expiry(35), 5))?;
    assert!(rt; !put.free && put.delta.value == 5);
    assert!(rt; put.delta.attributes.size == 3 && put.delta.attributes.depth == 4);
    let taken = change(Request::Delete(expiry(30)))?;
    assert!(rt; !taken.free && taken.delta.value == 3);
    assert!(rt; taken.delta.attributes.size == 1 && taken.delta.attributes.depth == 4);
    Ok(())
}
