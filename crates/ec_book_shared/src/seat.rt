//! The seat of a worker.

ghost use Rattle.std.specs.Prelude.{◌≡◌, ℕ, length};
ghost use Rattle.ec_units.specs.Load.{loads_of};
ghost use Rattle.ec_symmetry.specs.Orders.{IsOrder};
ghost use Rattle.ec_book_shared.specs.Seats.{seat_view};

use crate::receipts::Receipts;
use crate::search::Search;
use ec_book::Step;
use ec_units::Units;
use std::marker::Model;
use std::sync::ledger::Share;

/// Where a worker calls a shared book from: its number, the units and the order that it searches, its receipts, which
/// are its own steps in the order in which it made them, and its share of the nodes that the book has spent.
#[derive(Drop)]
pub struct Seat<'u, 'o, S: Search> {
    pub(crate) units: &'u Units,
    pub(crate) order: &'o [u8],
    pub(crate) worker: usize,
    pub(crate) receipts: Receipts,
    pub(crate) share: Share<S>,
}

impl<'u, 'o, S: Search> Model for Seat<'u, 'o, S> {
    ghost use Rattle.ec_book_shared.specs.Seats.{SeatView, seat_view, IsSeated};

    ghost Value = { SeatView };

    ghost view = { λ s. seat_view s.units.now.units s.units.now.slots s.order.now s.worker s.receipts.steps.items s.share.amount };

    ghost invariant = { λ s. IsSeated s.units.now.units s.order.now s.share.parts };
}

impl<'u, 'o, S: Search> Seat<'u, 'o, S> {
    /// The units that the seat is for.
    pub fn units(&self) -> &'u Units
        ensures units { result.now.units ≡ self.now.units }
        ensures slots { result.now.slots ≡ self.now.slots }
    {
        self.units
    }

    /// The order that the seat is for: the units by their indices, each once.
    pub fn order(&self) -> &'o [u8]
        ensures value { result.now ≡ self.now.order }
        ensures order { IsOrder (length self.now.units) result.now }
    {
        self.order
    }

    /// The worker's number.
    pub fn worker(&self) -> usize
        ensures { result ≡ self.now.worker }
    {
        self.worker
    }

    /// The worker's own steps, in the order in which it made them.
    pub fn receipts(&self) -> &[Step]
        ensures { result.now ≡ self.now.receipts }
    {
        self.receipts.steps.as_slice()
    }
}
