ghost use Rattle.std.specs.Prelude.{◌≡◌};
ghost use Rattle.nodes.specs.Chains.{deltas_of};
ghost use Rattle.nodes.specs.Scan.{between, fits as is_fit, looked, narrowed, noted, scanned, unseen};

use crate::chain::Chain;
use crate::node::{Delta, Kind};
use keys::order::Ordered;

/// What the newest delta of a key says: its value, or that it is gone.
#[derive(Clone, Copy, Debug, PartialEq, Eq)]
pub struct Edit<K> {
    pub key: K,
    pub value: Option<u64>,
}

/// What a pass over a chain has seen: the least split key, and the edit of the greatest key asked for.
#[derive(Clone, Copy, Debug, PartialEq, Eq)]
pub struct Seen<K> {
    pub limit: Option<K>,
    pub next: Option<Edit<K>>,
}

/// Whether a key stands before a limit that may be absent.
pub fn fits<K: Ordered>(key: &K, limit: Option<K>) -> bool
    ensures { result ≡ is_fit K.Ordered.before key.now limit }
{
    limit.is_none_or(|limit| key.stands_before(&limit))
}

impl<K: Ordered> Seen<K> {
    /// Whether a key stands before the last one handled and before the limit, and after the best edit so far.
    fn wants(&self, last: Option<K>, key: &K) -> bool
        ensures { result ≡ between K.Ordered.before last self.now.limit self.now.next key.now }
    {
        fits(key, last)
            && fits(key, self.limit)
            && self.next.is_none_or(|edit| edit.key.stands_before(key))
    }

    /// An insertion or deletion is seen.
    fn note(self, last: Option<K>, key: K, value: Option<u64>) -> Seen<K>
        ensures { result ≡ noted K.Ordered.before last self key value }
    {
        if self.wants(last, &key) {
            Seen {
                next: Some(Edit { key, value }),
                ..self
            }
        } else {
            self
        }
    }

    /// A split is seen.
    fn narrow(self, key: K) -> Seen<K>
        ensures { result ≡ narrowed K.Ordered.before self key }
    {
        if fits(&key, self.limit) {
            Seen {
                limit: Some(key),
                ..self
            }
        } else {
            self
        }
    }

    /// One delta of a pass.
    fn look(self, last: Option<K>, delta: &Delta<K>) -> Seen<K>
        ensures { result ≡ looked K.Ordered.before last self delta.now delta.now.kind }
    {
        match delta.kind {
            Kind::Insertion | Kind::Separator => self.note(last, delta.key, Some(delta.value)),
            Kind::Deletion => self.note(last, delta.key, None),
            Kind::Split => self.narrow(delta.key),
        }
    }
}

/// A pass over a chain: the least split key, and the newest edit of the greatest key before `last`.
pub(crate) fn scan<K: Ordered>(chain: Chain<K>, last: Option<K>) -> Seen<K>
    ensures { result ≡ scanned K.Ordered.before last unseen (deltas_of chain.entry) }
{
    let unseen = Seen {
        limit: None,
        next: None,
    };
    chain.fold(unseen, |seen, delta| seen.look(last, delta))
}
