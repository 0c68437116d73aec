//! Begin and step.

ghost use Rattle.std.specs.Prelude.{◌≡◌, ◌<◌, Ok};
ghost use Rattle.bwtree.specs.Lent.{Follows, Seated, held};
ghost use Rattle.bwtree.specs.Steps.{begin as begin_rule, fits, step as step_rule, step_for};

use crate::answer::{Answer, Refusal};
use crate::memory::LentMemory;
use crate::seat::{Phase, Request};
use crate::sizes::Sizes;
use crate::taking::Taken;
use crate::turn::Turn;
use keys::order::Ordered;
use nodes::items::PLACES;

impl<K: Copy> LentMemory<'_, K> {
    /// Whether the arrays have exactly the lengths of the sizes.
    fn fits(&self, sizes: Sizes) -> bool
        ensures { result ≡ fits sizes (held self.now) }
    {
        let items = sizes.frames.checked_mul(PLACES);
        self.slots.len() == sizes.slots
            && self.records.len() == sizes.records
            && self.frames.len() == sizes.frames
            && Some(self.keys.len()) == items
            && Some(self.values.len()) == items
            && self.seats.len() == 4
    }

    /// The turn of a seat, refused where the sizes are wrong or there is no such seat.
    pub(crate) fn turn(&self, sizes: Sizes, number: usize) -> Result<Turn<K>, Refusal>
        ensures { Seated sizes (held self.now) number result }
    {
        if !self.fits(sizes) {
            return Err(Refusal::WrongSizes);
        }
        if number > 3 {
            return Err(Refusal::NoSuchSeat);
        }
        let seat = self.seat(number)?;
        Ok(Turn { number, seat })
    }

    /// Begin: opens an operation on an idle seat.
    pub fn begin(
        &mut self,
        sizes: Sizes,
        number: usize,
        request: Request<K>,
    ) -> Result<Answer, Refusal>
        ensures { Follows (begin_rule sizes (held self.old) number request) self.old self.new result }
    {
        let turn = self.turn(sizes, number)?;
        if turn.seat.phase.is_open() {
            return Err(Refusal::SeatOpen);
        }
        self.set_seat(turn.opening(request));
        Ok(Answer::Begun)
    }
}

impl<K: Ordered> LentMemory<'_, K> {
    /// The step of a seat, by its phase.
    // A match, since a phase lies in lent memory as a plain enum of numbers.
    fn step_for(&mut self, turn: Turn<K>) -> Result<Answer, Refusal>
        ensures { Follows (step_for K.Ordered.before (held self.old) turn.number turn.seat turn.seat.phase) self.old self.new result }
    {
        match turn.seat.phase {
            Phase::Idle => Err(Refusal::SeatIdle),
            Phase::RootRead => self.root_read(turn),
            Phase::RootWalk { at, best } => self.root_walk(turn, at, best),
            Phase::LeafRead { slot } => self.leaf_read(turn, slot),
            Phase::LeafWalk { slot, snapshot, at } => self.leaf_walk(turn, slot, snapshot, at),
            Phase::Build { slot, snapshot } => self.build(turn, slot, snapshot),
            Phase::Swap {
                slot,
                snapshot,
                fresh,
            } => self.swap(turn, slot, snapshot, fresh),
            Phase::SplitSwap {
                slot,
                snapshot,
                split,
                separator,
                frame,
                target,
            } => {
                let taken = Taken {
                    split,
                    separator,
                    frame,
                    target,
                };
                self.split_swap(turn, slot, snapshot, taken)
            }
            Phase::PostRead {
                separator,
                depth,
                size,
            } => self.post_read(turn, separator, depth, size),
            Phase::PostSwap {
                snapshot,
                separator,
                depth,
                size,
            } => self.post_swap(turn, snapshot, separator, depth, size),
        }
    }

    /// Step: does one step of the seat's operation.
    pub fn step(&mut self, sizes: Sizes, number: usize) -> Result<Answer, Refusal>
        ensures { Follows (step_rule K.Ordered.before sizes (held self.old) number) self.old self.new result }
    {
        let turn = self.turn(sizes, number)?;
        self.step_for(turn)
    }
}
