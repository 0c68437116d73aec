ghost use Rattle.std.specs.Prelude.{◌≡◌, false, length, slice_set};
ghost use Rattle.nodes.specs.declared.node.FrameState.TheVariants.{Waiting};
ghost use Rattle.pool.specs.Waits.{Pools, alone, anyone, leaves, left_state, set_state};

use crate::free::free_chain;
use nodes::access::poke;
use nodes::node::{Frame, FrameState, Head, Record};

/// Gives a frame a state.
pub fn set_state<K: Copy>(frames: &mut [Frame<K>], f: usize, state: FrameState)
    ensures { frames.new ≡ set_state frames.old f state }
{
    // By index: after a write through `get_mut` a proof knows a slice's length alone.
    if f < frames.len() {
        frames[f].state = state;
    }
}

/// A replaced chain, of `count` records from `head` down to the frame `base`, waits for the marked seats. The seat
/// whose swap replaced it leaves the waits next, which frees what waits for nobody.
// Head, count and seats stand one by one, as a waiting frame holds them.
pub fn retire<K: Copy>(
    frames: &mut [Frame<K>],
    base: usize,
    head: Head,
    count: usize,
    seats: [bool; 4],
)
    ensures { frames.new ≡ set_state frames.old base (Waiting seats head count) }
{
    set_state(
        frames,
        base,
        FrameState::Waiting {
            seats,
            head,
            records: count,
        },
    );
}

/// The marks without that of a seat.
fn unmarked(mut seats: [bool; 4], seat: usize) -> [bool; 4]
    ensures { result ≡ slice_set seats seat false }
{
    poke(&mut seats, seat, false);
    seats
}

/// Whether any seat is marked.
fn any_marked(seats: [bool; 4]) -> bool
    ensures { result ≡ anyone seats }
{
    seats.contains(&true)
}

/// A seat leaves the waits of one frame: its replaced chain waits for the seats still marked, or is free where there is
/// none.
fn leave_frame<K: Copy>(records: &mut [Record<K>], frame: &mut Frame<K>, seat: usize)
    ensures { alone records.new frame.new ≡ left_state (alone records.old frame.old) seat 0 frame.old.state }
{
    let FrameState::Waiting {
        seats,
        head,
        records: count,
    } = frame.state
    else {
        return;
    };
    let seats = unmarked(seats, seat);
    if any_marked(seats) {
        frame.state = FrameState::Waiting {
            seats,
            head,
            records: count,
        };
    } else {
        free_chain(records, head, count);
        frame.state = FrameState::Free;
    }
}

/// A seat whose operation has ended leaves all waits, and what then waits for nobody is free.
// The two pools are lent one by one: most functions need one alone.
pub fn leave<K: Copy>(records: &mut [Record<K>], frames: &mut [Frame<K>], seat: usize)
    ensures { ◌≡◌ {A = Pools K} (record { records = records.new; frames = frames.new })
        (leaves (record { records = records.old; frames = frames.old }) seat (length frames.old)) }
{
    for frame in frames.iter_mut() {
        leave_frame(records, frame, seat);
    }
}
