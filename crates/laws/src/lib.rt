//! The index without memory behaves as a plain map.

#![tactic(auto)]

ghost use Rattle.laws.specs.Theorem.{MapStands};
ghost use Rattle.laws.specs.Trees.{TreeStands};

use keys::order::Ordered;

/// For every kind of key: from every lawful start, after every list of calls, whatever memory decides at each.
pub fn map_stands<K: Ordered>()
    ensures { MapStands K.Ordered.before }
{}

/// The same, of the tree: leaves in their bounds with true sizes, walks that find what a leaf holds, cuts that lose
/// nothing, and a root whose separators each lead to their leaf.
pub fn tree_stands<K: Ordered>()
    ensures { TreeStands K.Ordered.before }
{}
