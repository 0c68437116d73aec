//! The turn of a seat: what a step changes and then writes whole.

ghost use Rattle.std.specs.Prelude.{◌≡◌};
ghost use Rattle.bwtree.specs.Memory.{at_phase, lost as lost_seat, with_cursors, won as won_seat};
ghost use Rattle.bwtree.specs.Steps.{opened};
ghost use Rattle.bwtree.specs.Lent.{with_seat};

use crate::seat::{Cursors, Phase, Request, Seat};

/// The seat that does a step: its number, and a copy of it.
#[derive(Clone, Copy, Debug, PartialEq, Eq)]
pub struct Turn<K> {
    pub number: usize,
    pub seat: Seat<K>,
}

impl<K: Copy> Turn<K> {
    /// An operation is opened.
    pub(crate) fn opening(mut self, request: Request<K>) -> Turn<K>
        ensures { result ≡ with_seat self (opened self.seat request) }
    {
        self.seat.request = request;
        self.seat.phase = Phase::RootRead;
        self
    }

    pub(crate) fn at(mut self, phase: Phase) -> Turn<K>
        ensures { result ≡ with_seat self (at_phase self.seat phase) }
    {
        self.seat.phase = phase;
        self
    }

    pub(crate) fn taking(mut self, cursors: Cursors) -> Turn<K>
        ensures { result ≡ with_seat self (with_cursors self.seat cursors) }
    {
        self.seat.cursors = cursors;
        self
    }

    /// One more installed swap.
    pub(crate) fn won(mut self) -> Turn<K>
        ensures { result ≡ with_seat self (won_seat self.seat) }
    {
        self.seat.installed = self.seat.installed.saturating_add(1);
        self
    }

    /// One more failed swap.
    pub(crate) fn lost(mut self) -> Turn<K>
        ensures { result ≡ with_seat self (lost_seat self.seat) }
    {
        self.seat.failed = self.seat.failed.saturating_add(1);
        self
    }
}
