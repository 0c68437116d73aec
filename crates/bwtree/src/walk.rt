use crate::answer::End;
use nodes::node::Kind;

/// What a walk for a key learns at one node: the next node, however that is named, or the key's value, which may be
/// absent.
// No `ControlFlow`: each look is a step of its own and no round of a loop, so `Continue` and `Break` would say less.
#[derive(Clone, Copy, Debug, PartialEq, Eq)]
pub enum Look<P> {
    Onward(P),
    Decided(Option<u64>),
}

/// What a decided walk comes to: an ending with its value, 0 where there is none to tell, or a change with the value that
/// its record carries.
// No `Result`: neither is a failure of the other.
#[derive(Clone, Copy, Debug, PartialEq, Eq)]
pub enum Verdict {
    Ends(End, u64),
    Puts(Kind, u64),
}
