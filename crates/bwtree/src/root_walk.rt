//! Root walk: the greatest separator seen that does not stand after the key.

ghost use Rattle.std.specs.Prelude.{◌≡◌};
ghost use Rattle.bwtree.specs.Lent.{Follows, Followed, Reads, held};
ghost use Rattle.bwtree.specs.Walks.{best_after, better as is_better, past_frame, past_record, root_walk, separator_at, slot_of};

use crate::answer::{Answer, Refusal};
use crate::memory::LentMemory;
use crate::seat::Phase;
use crate::turn::Turn;
use keys::order::Ordered;
use nodes::node::{Delta, Head, Item, Kind, Record};

/// The separator in a record, as an item.
fn separator_at<K: Copy>(records: &[Record<K>], best: Option<usize>) -> Option<Item<K>>
    ensures { result ≡ separator_at records.now best }
{
    let record = records.get(best?)?;
    Some(Item {
        key: record.delta.key,
        value: record.delta.value,
    })
}

/// Whether a separator does not stand after the key, but after the best one so far.
fn better<K: Ordered>(key: &K, seen: Option<Item<K>>, separator: &K) -> bool
    ensures { result ≡ is_better K.Ordered.before key.now seen separator.now }
{
    !key.stands_before(separator) && seen.is_none_or(|best| best.key.stands_before(separator))
}

/// The record of the best separator, once the record `number` is seen too.
fn best_after<K: Ordered>(
    key: &K,
    seen: Option<Item<K>>,
    number: usize,
    delta: &Delta<K>,
    best: Option<usize>,
) -> Option<usize>
    ensures { result ≡ best_after K.Ordered.before key.now seen number delta.now.key best delta.now.kind }
{
    match delta.kind {
        Kind::Separator if better(key, seen, &delta.key) => Some(number),
        _ => best,
    }
}

/// The slot to which the walk leads: of the best separators of the records and of the frame the greater, else the
/// slot of the separator without a key.
fn slot_of<K: Ordered>(seen: Option<Item<K>>, framed: Option<Item<K>>, first: u64) -> u64
    ensures { result ≡ slot_of K.Ordered.before seen framed first }
{
    match seen {
        None => framed.map_or(first, |found| found.value),
        Some(best) => {
            framed
                .filter(|found| !found.key.stands_before(&best.key))
                .unwrap_or(best)
                .value
        }
    }
}

impl<K: Ordered> LentMemory<'_, K> {
    /// What the walk has after a record: the next node, and the best separator so far.
    fn past_record(&self, key: &K, best: Option<usize>, number: usize) -> Result<Phase, Refusal>
        ensures { Reads (past_record K.Ordered.before (held self.now).records key.now best number) result }
    {
        let delta = self.record(number)?.delta;
        let seen = separator_at(self.records, best);
        Ok(Phase::RootWalk {
            at: delta.next,
            best: best_after(key, seen, number, &delta, best),
        })
    }

    /// The leaf to which the walk leads at the root's frame.
    fn past_frame(&self, key: &K, best: Option<usize>, number: usize) -> Result<Phase, Refusal>
        ensures { Followed (past_frame K.Ordered.before (held self.now) key.now best number) result }
    {
        let size = self.frame(number)?.attributes.size;
        let found = self
            .items()
            .separators(number, size, key)
            .ok_or(Refusal::Impossible)?;
        let seen = separator_at(self.records, best);
        // A slot's number in a value: usize and u64 have no From, and both have 64 bits.
        Ok(Phase::LeafRead {
            slot: slot_of(seen, found.best, found.first) as usize,
        })
    }

    /// Root walk: looks at one record or frame of the root's chain. A record leads to its next, the frame ends the walk.
    pub fn root_walk(
        &mut self,
        turn: Turn<K>,
        at: Head,
        best: Option<usize>,
    ) -> Result<Answer, Refusal>
        ensures { Follows (root_walk K.Ordered.before (held self.old) turn.number turn.seat at best) self.old self.new result }
    {
        let key = turn.seat.request.key()?;
        let phase = match at {
            Head::Record(number) => self.past_record(&key, best, number)?,
            Head::Frame(number) => self.past_frame(&key, best, number)?,
        };
        Ok(self.goes(turn, phase))
    }
}
