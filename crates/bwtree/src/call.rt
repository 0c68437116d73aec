//! A call as a value, and the function that makes it.

ghost use Rattle.std.specs.Prelude.{Some};
ghost use Rattle.nodes.specs.Build.{Promised};
ghost use Rattle.bwtree.specs.Calls.{call as call_rule};
ghost use Rattle.bwtree.specs.Lent.{Follows, held};

use crate::answer::{Answer, Refusal};
use crate::memory::LentMemory;
use crate::seat::{Request, Seat};
use crate::sizes::Sizes;
use keys::order::Ordered;
use nodes::node::{Frame, Record, Slot};

/// A call of an index in service, with the number of its seat.
#[derive(Clone, Copy, Debug, PartialEq, Eq)]
pub enum Call<K> {
    Begin(usize, Request<K>),
    Step(usize),
    Report(usize),
}

impl<K: Ordered> LentMemory<'_, K> {
    /// Makes the call.
    // A match, since a call is a value that is written down in lists of calls.
    pub fn make_call(&mut self, sizes: Sizes, call: Call<K>) -> Result<Answer, Refusal>
        ensures { Follows (call_rule K.Ordered.before sizes (held self.old) call) self.old self.new result }
    {
        match call {
            Call::Begin(number, request) => self.begin(sizes, number, request),
            Call::Step(number) => self.step(sizes, number),
            Call::Report(number) => self.report(sizes, number),
        }
    }
}

/// Makes a call on six arrays: they hold what the rule says, wherever it gives an outcome.
// For an owner of all six, as of vectors in a struct: there the check does not find what a call by a LentMemory made of them.
pub fn call_on_arrays<K: Ordered>(
    sizes: Sizes,
    slots: &mut [Slot],
    records: &mut [Record<K>],
    frames: &mut [Frame<K>],
    keys: &mut [K],
    values: &mut [u64],
    seats: &mut [Seat<K>],
    call: Call<K>,
) -> Result<Answer, Refusal>
    ensures { Promised (call_rule K.Ordered.before sizes (record { slots = slots.old; records = records.old; frames = frames.old; keys = keys.old; values = values.old; seats = seats.old }) call)
        (record { memory = record { slots = slots.new; records = records.new; frames = frames.new; keys = keys.new; values = values.new; seats = seats.new }; answer = result }) }
{
    let mut memory = LentMemory {
        slots,
        records,
        frames,
        keys,
        values,
        seats,
    };
    memory.make_call(sizes, call)
}
