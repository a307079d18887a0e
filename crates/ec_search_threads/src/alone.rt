//! A worker that works alone, on a book without a lock.

ghost use Rattle.std.specs.Coded.{Coded-set};
ghost use Rattle.std.specs.Prelude.{◌≡◌, ◌≤◌, None, IfOk, length};
ghost use Rattle.std.proofs.Props.{props};
ghost use Rattle.ec_loads.specs.Line.{line_by};
ghost use Rattle.ec_symmetry.specs.Orders.{IsOrder, IsReachedPrefix};
ghost use Rattle.ec_cert.specs.IsBestPlan.{value_of};
ghost use Rattle.ec_book.specs.Books.{IsBookOf, BeganWith, IsSameSearch};
ghost use Rattle.ec_book.specs.RulesCode.{rules_code};
ghost use Rattle.ec_book.specs.ShapeCode.{shape_code};
ghost use Rattle.ec_book_shared.specs.Seats.{AreOf, IsFor};

use crate::desk::Desk;
use crate::ended::Ended;
use crate::gate::Gate;
use crate::ground::ground_of;
use crate::pace::MOST_GRANT;
use crate::turn::worked_off;
use ec_book::{Book, BookFault, Taken, Took};
use ec_book_shared::Search;
use ec_cert::{Best, Subtree};
use ec_symmetry::Rules;
use ec_units::Units;
use std::alloc::Global;
use std::marker::{Brand, PhantomData};
use std::sync::Wait;

/// The number of the only worker.
const ALONE: usize = 0;

/// A book of the worker's own.
#[derive(Drop)]
pub(crate) struct LoneDesk<S: Search> {
    pub book: Book,
    pub search: PhantomData<S>,
    pub ghost loads_is: { book.loads ≡ S.loads },
    pub ghost slots_is: { book.slots ≡ S.slots },
    pub ghost order_is: { book.order ≡ S.order },
    pub ghost rules_is: { book.rules ≡ S.rules } by { Coded-set rules_code book.rules S.rules },
    pub ghost given_is: { book.given ≡ S.given } by { Coded-set shape_code book.given S.given },
    pub ghost value_is: { book.given_value ≡ S.given_value } by { Prim.hlevel props },
    pub ghost nodes_is: { book.nodes ≡ S.nodes },
    pub ghost part_is: { book.part ≡ S.part } by { Prim.hlevel props },
}

impl<S: Search> Desk<S> for LoneDesk<S> {
    ghost known = { λ _. None };

    ghost is_value = { λ d v. value_of d.book.best ≡ v };

    ghost left = { λ _ _. Unit {0} };

    fn worker(&self) -> usize {
        ALONE
    }

    fn rules(&self) -> Rules {
        self.book.rules()
    }

    fn read(&mut self) -> Option<u64> {
        None
    }

    fn improve(&mut self, best: Best) -> Result<u64, Ended> {
        let _ = self.book.value();
        let busiest = best.busiest;
        match self.book.improve(ALONE, best) {
            Ok(()) => Ok(busiest),
            Err((BookFault::NotBetter(value), _)) => Ok(value),
            Err(_) => Err(Ended::Memory),
        }
    }

    fn report(&mut self, took: &Took, sub: Subtree) -> Result<(), BookFault> {
        match self
            .book
            .report(ALONE, took.piece, took.prefix.as_slice(), sub)
        {
            Ok(()) => Ok(()),
            Err((fault, _)) => Err(fault),
        }
    }

    fn give_back(&mut self, piece: u64) -> bool {
        self.book.back(ALONE, piece).is_ok()
    }
}

impl<S: Search> LoneDesk<S> {
    /// Takes the lowest free piece; else why the worker ends.
    fn take(&mut self) -> Result<Took, Ended>
        ensures reached { IfOk result (λ took. IsReachedPrefix (line_by S.rules S.loads S.slots) S.order took.prefix) }
        ensures some { IfOk result (λ took. 1 ≤ took.grant) }
    {
        match self.book.take(ALONE, MOST_GRANT) {
            Ok(Taken::Piece(took)) => Ok(took),
            Ok(_) => Err(Ended::Done),
            Err(_) => Err(Ended::Memory),
        }
    }
}

/// Takes pieces, the lowest first, until none can be handed out, the time is over, memory is refused or the book refuses a
/// call; says which. All pieces are explored in the same loads.
fn work<S: Search, R: Wait, G: Gate>(
    rt: &R,
    alloc: Global,
    units: &Units,
    order: &[u8],
    desk: &mut LoneDesk<S>,
    gate: &G,
) -> Ended
    requires order { IsOrder (length S.loads) order.now }
    requires search { AreOf S.loads S.slots S.order units.now.units units.now.slots order.now }
{
    let Ok(mut ground) = ground_of::<S>(alloc, units, order) else {
        return Ended::Memory;
    };
    for _ in rt.forever() {
        if gate.is_over() {
            return Ended::Time;
        }
        let took = match desk.take() {
            Ok(took) => took,
            Err(ended) => return ended,
        };
        let before = desk.book.spent();
        if let Some(ended) = worked_off(rt, alloc, desk, &mut ground, &took, gate) {
            return ended;
        }
        let nodes = desk.book.spent().saturating_sub(before);
        gate.after(ALONE, nodes, desk.book.value());
    }
    unreachable!()
}

/// Works on the book of a search; also says why that ended.
fn work_on<S: Search, R: Wait, G: Gate>(
    rt: &R,
    alloc: Global,
    units: &Units,
    order: &[u8],
    book: Book,
    gate: &G,
) -> (Book, Ended)
    requires order { IsOrder (length S.loads) order.now }
    requires search { AreOf S.loads S.slots S.order units.now.units units.now.slots order.now }
    requires book { IsFor S.loads S.slots S.order S.rules book }
    requires began { BeganWith S.given S.given_value S.nodes S.part book }
    ensures book { IsFor S.loads S.slots S.order S.rules result.0 }
    ensures began { BeganWith S.given S.given_value S.nodes S.part result.0 }
{
    let mut desk = LoneDesk::<S> {
        book,
        search: PhantomData,
    };
    let ended = work(rt, alloc, units, order, &mut desk, gate);
    (desk.book, ended)
}

/// Works on a book with one worker, in the calling thread: takes the lowest free piece, explores it and reports its subtree, until
/// nothing can be handed out, the time is over or memory is refused; says which. Each better plan is offered when it is found.
pub fn work_alone<R: Wait, G: Gate>(
    rt: &R,
    alloc: Global,
    units: &Units,
    order: &[u8],
    book: Book,
    gate: &G,
) -> (Book, Ended)
    requires order { IsOrder (length units.now.units) order.now }
    requires book { IsBookOf units.now.units units.now.slots order.now book.rules book }
    ensures same { IsSameSearch book result.0 }
{
    work_on::<Brand, R, G>(rt, alloc, units, order, book, gate)
}
