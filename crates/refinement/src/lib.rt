//! An index over lent memory behaves as a plain map: its memory follows the index without memory.

#![tactic(auto)]

ghost use Rattle.refinement.specs.Beginning.{NewIndexFollows};
ghost use Rattle.refinement.specs.Following.{BeginFollows, LeafStepsFollow, PostStepsFollow};
ghost use Rattle.refinement.specs.Stands.{IndexStands};

use keys::order::Ordered;

/// For every kind of key: on memory that stands for a world, every step of a lookup, an insertion, a
/// deletion or the consolidation of a leaf is possible, answers as in that world, and leaves memory that stands for the
/// next one.
pub fn leaf_steps_follow<K: Ordered>()
    ensures { LeafStepsFollow K.Ordered.before }
{}

/// The same of begin.
pub fn begin_follows<K: Ordered>()
    ensures { BeginFollows K.Ordered.before }
{}

/// The same of the two steps that post a split's separator to the root.
pub fn post_steps_follow<K: Ordered>()
    ensures { PostStepsFollow K.Ordered.before }
{}

/// For every kind of key: a new index, over arrays of lawful sizes, stands for the start without items.
pub fn new_index_follows<K: Ordered>()
    ensures { NewIndexFollows K.Ordered.before }
{}

/// For every kind of key: an index over lent memory behaves as a plain map, from every start and after every list of calls.
pub fn index_stands<K: Ordered>()
    ensures { IndexStands K.Ordered.before }
{}
