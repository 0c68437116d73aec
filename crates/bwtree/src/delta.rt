//! What a delta record carries when it is put on a head.

ghost use Rattle.std.specs.Prelude.{◌≡◌};
ghost use Rattle.bwtree.specs.Deltas.{cut as cut_of, delta_on};
ghost use Rattle.bwtree.specs.Lent.{Reads};

use crate::answer::Refusal;
use crate::old_chain::OldChain;
use nodes::node::{Attributes, Delta, Kind};

/// How many of `size` entries a split leaves in the old leaf.
pub(crate) fn cut(size: usize) -> usize
    ensures { result ≡ cut_of size }
{
    size / 2
}

/// A delta put on a chain, refused where a number would pass 64 bits. A split's own key is its high key, and its new
/// leaf the right sibling.
pub(crate) fn delta_on<K: Copy>(
    kind: Kind,
    key: K,
    value: u64,
    old: &OldChain<K>,
) -> Result<Delta<K>, Refusal>
    ensures { Reads (delta_on kind key value old.now.head old.now.attributes) result }
{
    let below = &old.attributes;
    let depth = below.depth.checked_add(1).ok_or(Refusal::Impossible)?;
    let grown = below.size.checked_add(1).ok_or(Refusal::Impossible)?;
    let size = match kind {
        Kind::Insertion | Kind::Separator => grown,
        Kind::Deletion => below.size.saturating_sub(1),
        Kind::Split => cut(below.size),
    };
    // A slot's number in a value: usize and u64 have no From, and both have 64 bits.
    let (high, right) = match kind {
        Kind::Split => (Some(key), Some(value as usize)),
        _ => (below.high, below.right),
    };
    Ok(Delta {
        kind,
        key,
        value,
        next: old.head,
        attributes: Attributes {
            low: below.low,
            high,
            right,
            size,
            depth,
        },
    })
}
