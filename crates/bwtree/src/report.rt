//! Report: a seat's counters, and what every record of the index is in use for.

ghost use Rattle.std.specs.Prelude.{◌≡◌, ℕ, Ok};
ghost use Rattle.nodes.specs.Build.{Promised};
ghost use Rattle.bwtree.specs.Lent.{held, outcome};
ghost use Rattle.bwtree.specs.Reports.{capped, depth_of, held_by, held_in, is_free, report as report_rule, reported, total, waiting_in};

use crate::answer::{Answer, Refusal, Report};
use crate::memory::LentMemory;
use crate::seat::{Phase, Seat};
use crate::sizes::Sizes;
use nodes::chain::attributes;
use nodes::node::{Frame, FrameState, Head, Record, Slot};

/// What counts some records: itself, those that wait with it, or those that it holds.
trait Counts: Copy {
    ghost count: { Self → ℕ };

    fn count(&self) -> usize
        ensures { result ≡ count self.now };
}

/// A record counts itself where it is free.
impl<K: Copy> Counts for Record<K> {
    ghost count = { λ r. is_free r };

    fn count(&self) -> usize {
        usize::from(self.free)
    }
}

/// A frame counts the records that wait with it.
impl<K: Copy> Counts for Frame<K> {
    ghost count = { λ f. waiting_in f.state };

    fn count(&self) -> usize {
        match self.state {
            FrameState::Waiting { records, .. } => records,
            FrameState::Free | FrameState::Used => 0,
        }
    }
}

/// How many records a swap holds for what it is to install.
fn held_by(fresh: Head) -> usize
    ensures { result ≡ held_by fresh }
{
    usize::from(matches!(fresh, Head::Record(_)))
}

/// A seat counts the records that its operation has taken and not installed.
impl<K: Copy> Counts for Seat<K> {
    ghost count = { λ s. held_in s.phase };

    fn count(&self) -> usize {
        match self.phase {
            Phase::Swap { fresh, .. } => held_by(fresh),
            Phase::SplitSwap { .. } => 2,
            Phase::PostRead { .. } | Phase::PostSwap { .. } => 1,
            _ => 0,
        }
    }
}

/// All that the places of an array count.
fn count_all<T: Counts>(xs: &[T]) -> usize
    ensures { result ≡ capped (total T.Counts.count xs.now) }
{
    xs.iter()
        .fold(0, |sum: usize, x| sum.saturating_add(x.count()))
}

/// The records between a slot's head and its frame.
// The two pools are lent one by one: most functions need one alone.
fn depth_of<K: Copy>(records: &[Record<K>], frames: &[Frame<K>], head: Option<Head>) -> usize
    ensures { result ≡ depth_of records.now frames.now head }
{
    head.and_then(|head| attributes(records, frames, head))
        .map_or(0, |chain| chain.depth)
}

/// The records that all slots lead to.
// Beside count_all: the depth of a head is read in two other arrays.
fn count_chained<K: Copy>(slots: &[Slot], records: &[Record<K>], frames: &[Frame<K>]) -> usize
    ensures { result ≡ capped (total (λ (x : Slot). depth_of records.now frames.now x.head) slots.now) }
{
    slots.iter().fold(0, |sum: usize, slot| {
        sum.saturating_add(depth_of(records, frames, slot.head))
    })
}

impl<K: Copy> LentMemory<'_, K> {
    /// The report of a seat.
    fn reported(&self, seat: &Seat<K>) -> Report
        ensures { Promised (reported (held self.now) seat.now) (outcome self.now (Ok (Answer.Reported result))) }
    {
        Report {
            installed: seat.installed,
            failed: seat.failed,
            free: count_all(self.records),
            chained: count_chained(self.slots, self.records, self.frames),
            held: count_all(self.seats),
            waiting: count_all(self.frames),
        }
    }

    /// Report: the counters of a seat, and the numbers of records.
    pub fn report(&self, sizes: Sizes, number: usize) -> Result<Answer, Refusal>
        ensures { Promised (report_rule sizes (held self.now) number) (outcome self.now result) }
    {
        let turn = self.turn(sizes, number)?;
        Ok(Answer::Reported(self.reported(&turn.seat)))
    }
}
