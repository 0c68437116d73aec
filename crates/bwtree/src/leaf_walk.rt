//! Leaf walk: what the chain of a leaf says of a key, and what the request then does.

ghost use Rattle.std.specs.Prelude.{◌≡◌};
ghost use Rattle.bwtree.specs.Lent.{Followed, Follows, Reads, free_record_from, held};
ghost use Rattle.bwtree.specs.Walks.{leaf_walk, look_at, look_delta, looked, put, verdict as verdict_of};

use crate::answer::{Answer, End, Ending, Refusal};
use crate::delta::delta_on;
use crate::memory::LentMemory;
use crate::old_chain::OldChain;
use crate::seat::{Cursors, Phase, Request};
use crate::turn::Turn;
use crate::walk::{Look, Verdict};
use keys::order::{Ordered, same};
use nodes::items::PLACES;
use nodes::node::{Delta, Head, Kind, Record};

/// What a delta says of a key.
fn look_delta<K: Ordered>(key: &K, delta: &Delta<K>) -> Look<Head>
    ensures { result ≡ look_delta K.Ordered.before key.now delta.now.key delta.now.value delta.now.next delta.now.kind }
{
    match delta.kind {
        Kind::Insertion if same(key, &delta.key) => Look::Decided(Some(delta.value)),
        Kind::Deletion if same(key, &delta.key) => Look::Decided(None),
        _ => Look::Onward(delta.next),
    }
}

impl<K: Copy> Request<K> {
    /// What a decided walk comes to, on a snapshot of this size.
    fn verdict(&self, size: usize, found: Option<u64>) -> Result<Verdict, Refusal>
        ensures { Reads (verdict_of self.now size found) result }
    {
        match (self, found) {
            (Request::Lookup(_), Some(value)) => Ok(Verdict::Ends(End::Found, value)),
            (Request::Insert(_, _), Some(old)) => Ok(Verdict::Ends(End::Present, old)),
            (Request::Insert(_, _), None) if size >= PLACES => Ok(Verdict::Ends(End::LeafFull, 0)),
            (Request::Insert(_, value), None) => Ok(Verdict::Puts(Kind::Insertion, *value)),
            (Request::Delete(_), Some(old)) => Ok(Verdict::Puts(Kind::Deletion, old)),
            (Request::Lookup(_) | Request::Delete(_), None) => Ok(Verdict::Ends(End::Missing, 0)),
            _ => Err(Refusal::Impossible),
        }
    }
}

impl<K: Copy> LentMemory<'_, K> {
    /// A change: a record is taken and filled on the snapshot, unless none is free.
    fn put(
        &mut self,
        turn: Turn<K>,
        old: &OldChain<K>,
        key: K,
        kind: Kind,
        value: u64,
    ) -> Result<Answer, Refusal>
        ensures { Follows (put (held self.old) turn.number turn.seat old.now.slot old.now.head old.now.attributes key kind value (free_record_from (held self.old) turn.seat.cursors)) self.old self.new result }
    {
        let cursors = turn.seat.cursors;
        // Not `?`: an operation that ends has an answer, and `?` would leave with a refusal.
        let Some(number) = self.free_record(cursors) else {
            return Ok(self.ends(turn, Ending::on(End::TooFewRecords, 0, &old.attributes)));
        };
        let delta = delta_on(kind, key, value, old)?;
        self.set_record(number, Record { free: false, delta });
        let cursors = Cursors {
            records: number,
            ..cursors
        };
        let swap = Phase::Swap {
            slot: old.slot,
            snapshot: old.head,
            fresh: Head::Record(number),
        };
        Ok(self.goes(turn.taking(cursors), swap))
    }

    /// The walk is decided, with the key's value if it has one.
    fn decided(
        &mut self,
        turn: Turn<K>,
        old: &OldChain<K>,
        key: K,
        found: Option<u64>,
    ) -> Result<Answer, Refusal>
        ensures { Follows (looked (held self.old) turn.number turn.seat old.now.slot old.now.head old.now.attributes key (Look.Decided found)) self.old self.new result }
    {
        match turn.seat.request.verdict(old.attributes.size, found)? {
            Verdict::Ends(end, value) => Ok(self.ends(
                turn,
                Ending::on(end, value, &old.attributes),
            )),
            Verdict::Puts(kind, value) => self.put(turn, old, key, kind, value),
        }
    }
}

impl<K: Ordered> LentMemory<'_, K> {
    /// What one record or frame of a leaf's chain says of a key.
    fn look_at(&self, key: &K, at: Head) -> Result<Look<Head>, Refusal>
        ensures { Followed (look_at K.Ordered.before (held self.now).records (held self.now).frames (held self.now).keys (held self.now).values key.now at) result }
    {
        match at {
            Head::Record(number) => Ok(look_delta(key, &self.record(number)?.delta)),
            Head::Frame(number) => {
                let size = self.frame(number)?.attributes.size;
                let found = self.items().find(number, size, key);
                found.map(Look::Decided).ok_or(Refusal::Impossible)
            }
        }
    }

    /// Leaf walk: looks at one record or frame of the leaf's chain.
    // Slot and snapshot stand one by one here, in build and in the swaps, as in the phases that hold them.
    pub fn leaf_walk(
        &mut self,
        turn: Turn<K>,
        slot: usize,
        snapshot: Head,
        at: Head,
    ) -> Result<Answer, Refusal>
        ensures { Follows (leaf_walk K.Ordered.before (held self.old) turn.number turn.seat slot snapshot at) self.old self.new result }
    {
        let key = turn.seat.request.key()?;
        let attributes = self.attributes(snapshot)?;
        match self.look_at(&key, at)? {
            Look::Onward(at) => Ok(self.goes(turn, Phase::LeafWalk { slot, snapshot, at })),
            Look::Decided(found) => {
                let old = OldChain {
                    slot,
                    head: snapshot,
                    attributes,
                };
                self.decided(turn, &old, key, found)
            }
        }
    }
}
