//! What a request asks for along its way.

ghost use Rattle.std.specs.Prelude.{◌≡◌};
ghost use Rattle.bwtree.specs.Lent.{Reads};
ghost use Rattle.bwtree.specs.Walks.{after_leaf_read, after_root_read, key_of};

use crate::answer::Refusal;
use crate::seat::{Phase, Request};
use nodes::node::Head;

impl<K: Copy> Request<K> {
    /// The key that a request is about.
    pub(crate) fn key(&self) -> Result<K, Refusal>
        ensures { Reads (key_of self.now) result }
    {
        match *self {
            Request::Lookup(key)
            | Request::Insert(key, _)
            | Request::Delete(key)
            | Request::Consolidate(key)
            | Request::Split(key) => Ok(key),
            Request::ConsolidateRoot => Err(Refusal::Impossible),
        }
    }

    /// The phase after the root read that took this snapshot.
    pub(crate) fn after_root_read(&self, snapshot: Head) -> Phase
        ensures { result ≡ after_root_read self.now snapshot }
    {
        match self {
            Request::ConsolidateRoot => Phase::Build { slot: 0, snapshot },
            _ => Phase::RootWalk {
                at: snapshot,
                best: None,
            },
        }
    }

    /// The phase after the leaf read that took this snapshot.
    pub(crate) fn after_leaf_read(&self, slot: usize, snapshot: Head) -> Phase
        ensures { result ≡ after_leaf_read self.now slot snapshot }
    {
        match self {
            Request::Lookup(_) | Request::Insert(_, _) | Request::Delete(_) => Phase::LeafWalk {
                slot,
                snapshot,
                at: snapshot,
            },
            _ => Phase::Build { slot, snapshot },
        }
    }
}
