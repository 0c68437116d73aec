//! A small memory, and the nine steps on copies of it.

use bwtree::answer::{Answer, Refusal};
use bwtree::memory::LentMemory;
use bwtree::seat::{Cursors, Phase, Request, Seat};
use bwtree::sizes::Sizes;
use bwtree::taking::Taken;
use bwtree::turn::Turn;
use keys::expiry::Expiry;
use nodes::node::{Frame, Head, Record, Slot};

/// All that a step is lent.
// Keys beside values, as they are lent. No equality: the tests compare parts.
#[derive(Clone, Copy)]
pub struct Memory {
    pub slots: [Slot; 3],
    pub records: [Record<Expiry>; 4],
    pub frames: [Frame<Expiry>; 2],
    pub keys: [Expiry; 128],
    pub values: [u64; 128],
    pub seats: [Seat<Expiry>; 4],
}

pub fn seat<K: Copy>(request: Request<K>, phase: Phase) -> Seat<K> {
    Seat {
        request,
        phase,
        cursors: Cursors {
            records: 0,
            frames: 0,
            slots: 0,
        },
        installed: 0,
        failed: 0,
    }
}

impl Memory {
    /// The memory, lent to a step.
    pub fn lend(&mut self) -> LentMemory<'_, Expiry> {
        let Memory {
            slots,
            records,
            frames,
            keys,
            values,
            seats,
        } = self;
        LentMemory {
            slots,
            records,
            frames,
            keys,
            values,
            seats,
        }
    }
}

/// What a step answers the first seat on a copy of a memory.
fn on_copy<F: FnOnce(&mut LentMemory<'_, Expiry>, Turn<Expiry>) -> Result<Answer, Refusal>>(
    memory: &Memory,
    step: F,
) -> Result<Answer, Refusal>
    requires { F.IsAlwaysCallable step }
{
    let mut copy = *memory;
    let seat = copy.seats[0];
    step(&mut copy.lend(), Turn { number: 0, seat })
}

/// What the nine steps answer, each on a copy of the memory, where every head and every number is this one.
pub fn answers(memory: &Memory, head: Head, number: usize) -> [Result<Answer, Refusal>; 9] {
    let taken = Taken {
        split: number,
        separator: number,
        frame: number,
        target: number,
    };
    [
        on_copy(memory, |lent, turn| lent.root_read(turn)),
        on_copy(
            memory,
            |lent, turn| lent.root_walk(turn, head, Some(number)),
        ),
        on_copy(memory, |lent, turn| lent.leaf_read(turn, number)),
        on_copy(
            memory,
            |lent, turn| lent.leaf_walk(turn, number, head, head),
        ),
        on_copy(memory, |lent, turn| lent.build(turn, number, head)),
        on_copy(memory, |lent, turn| lent.swap(turn, number, head, head)),
        on_copy(
            memory,
            |lent, turn| lent.split_swap(turn, number, head, taken),
        ),
        on_copy(
            memory,
            |lent, turn| lent.post_read(turn, number, number, number),
        ),
        on_copy(
            memory,
            |lent, turn| lent.post_swap(turn, head, number, number, number),
        ),
    ]
}

/// The phases of the nine steps, where every head and every number is this one.
pub fn phases(head: Head, number: usize) -> [Phase; 9] {
    [
        Phase::RootRead,
        Phase::RootWalk {
            at: head,
            best: Some(number),
        },
        Phase::LeafRead { slot: number },
        Phase::LeafWalk {
            slot: number,
            snapshot: head,
            at: head,
        },
        Phase::Build {
            slot: number,
            snapshot: head,
        },
        Phase::Swap {
            slot: number,
            snapshot: head,
            fresh: head,
        },
        Phase::SplitSwap {
            slot: number,
            snapshot: head,
            split: number,
            separator: number,
            frame: number,
            target: number,
        },
        Phase::PostRead {
            separator: number,
            depth: number,
            size: number,
        },
        Phase::PostSwap {
            snapshot: head,
            separator: number,
            depth: number,
            size: number,
        },
    ]
}

/// What `step` answers a seat on a copy of the memory, where the first seat has this phase.
pub fn stepped(memory: &Memory, seat: usize, phase: Phase) -> Result<Answer, Refusal> {
    let mut copy = *memory;
    copy.seats[0].phase = phase;
    let sizes = Sizes {
        slots: 3,
        records: 4,
        frames: 2,
    };
    copy.lend().step(sizes, seat)
}
