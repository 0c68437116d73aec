ghost use Rattle.std.specs.Prelude.{◌≡◌, Bool, drop, position};
ghost use Rattle.pool.specs.Free.{empty_slot, first_in, free_chain, free_frame, next_free, other_free};

use nodes::node::{Frame, FrameState, Head, Record, Slot};

/// What lies in a pool and may be free to be taken.
pub trait Pooled: Copy {
    ghost free: { Self → Bool };

    fn is_free(&self) -> bool
        ensures { result ≡ free self.now };
}

impl<K: Copy> Pooled for Record<K> {
    ghost free = { λ r. r.free };

    fn is_free(&self) -> bool {
        self.free
    }
}

impl<K: Copy> Pooled for Frame<K> {
    ghost free = { λ f. free_frame f.state };

    fn is_free(&self) -> bool {
        self.state == FrameState::Free
    }
}

impl Pooled for Slot {
    ghost free = { λ s. empty_slot s.head };

    fn is_free(&self) -> bool {
        self.head.is_none()
    }
}

/// The first free place.
fn first_free<T: Pooled>(xs: &[T]) -> Option<usize>
    ensures { result ≡ position T.Pooled.free xs.now }
{
    xs.iter().position(|x| x.is_free())
}

/// The first free place at `from` or later.
fn first_from<T: Pooled>(xs: &[T], from: usize) -> Option<usize>
    ensures { result ≡ first_in T.Pooled.free from (drop from xs.now) }
{
    let place = first_free(xs.get(from..)?)?;
    Some(from + place)
}

/// The free place that is taken next. The cursor is what the seat took last, so that what is in use is seldom
/// passed.
#[tactic(auto, using(crate::proofs::Firsts::first_whole))]
pub fn next_free<T: Pooled>(xs: &[T], cursor: usize) -> Option<usize>
    ensures { result ≡ next_free T.Pooled.free xs.now cursor }
{
    first_from(xs, cursor).or_else(|| first_free(xs))
}

/// A second free place beside `i`.
#[tactic(auto, using(crate::proofs::Firsts::first_whole))]
pub fn other_free<T: Pooled>(xs: &[T], i: usize) -> Option<usize>
    ensures { result ≡ other_free T.Pooled.free xs.now i }
{
    // Past the end nothing comes after `i`, and `i + 1` may not fit.
    if i >= xs.len() {
        return first_free(xs);
    }
    first_from(xs, i + 1).or_else(|| first_free(&xs[..i]))
}

/// Frees the record at a head, and those below it, `count` in all.
pub fn free_chain<K: Copy>(records: &mut [Record<K>], head: Head, count: usize)
    ensures { records.new ≡ free_chain count records.old head }
{
    let mut at = head;
    // No iterator: each record is written before the next one is read.
    for _ in 0..count {
        let Head::Record(number) = at else {
            return;
        };
        let Some(record) = records.get(number) else {
            return;
        };
        at = record.delta.next;
        records[number].free = true;
    }
}
