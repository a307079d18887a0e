//! The least value that several threads have found, in one word.

ghost use Rattle.std.specs.Prelude.{◌≡◌, ◌≤◌, ◌<◌, IfOk, All, vec_len, min, None, Some};
ghost use Rattle.ec_search_queues.specs.Lowest.{IsKnown, HasSeen, known, nothing, told, IsAtMost, IsNewReader, IsRead, IsLowered};

use atomic_table::{Play, Seat, Split, Table, TableRule};
use std::alloc::{AllocError, Global};
use std::marker::Model;

/// The word as long as nothing was lowered to.
const NOTHING: u64 = u64::MAX;

/// The least number that a seat has read or lowered to, and the least that it has lowered to. No value of it is made.
pub struct Known {
    pub least: u64,
    pub lowered: u64,
}

/// The word is at most every number that a reader has read or lowered to, and at least the least that a reader has
/// lowered to.
struct Falls;

impl TableRule<(), Known, ()> for Falls {
    ghost holds = { λ _ s. IsKnown s };

    ghost first = { λ _. known nothing nothing };
}

/// The number that is found is at most what the seat knew, and is what it knows from then on.
struct Sees;

impl Play<(), Known> for Sees {
    ghost then = { λ _ v n w. HasSeen v n w (known n v.0.lowered) };
}

/// The same, where the step also lowers the word.
struct Lowers;

impl Play<(), Known> for Lowers {
    ghost then = { λ s v n w. HasSeen v n w (known (min n s.first) (min v.0.lowered s.first)) };
}

/// Two seats know the same.
struct Twice;

impl Split<Known> for Twice {
    ghost left = { λ v. v };

    ghost right = { λ v. v };
}

/// A number, in wire bytes, that only falls; none at first. It is at most every number that one of its readers has read
/// or lowered to, and at least the least that one of them has lowered to. A contract sees which one it is.
#[derive(Drop)]
pub struct Bound {
    table: Table<(), Known, (), Falls, Global>,
}

impl Model for Bound {
    ghost use Rattle.atomic_table.specs.Seated.{TableId};
    ghost use Rattle.std.specs.Prelude.{◌≡◌};

    ghost Value = { TableId };

    ghost view = { λ b. b.table.shared.table_id };

    ghost invariant = { λ b. b.table.shared.table_id.words ≡ 1 };
}

/// What one thread knows of a bound: a contract sees which bound it is, the least number that the reader has read or
/// lowered to, none before, and the least that it has lowered to itself.
#[derive(Drop)]
pub struct Reader {
    seat: Seat<(), Known>,
}

impl Model for Reader {
    ghost use Rattle.ec_search_queues.specs.Lowest.{ReaderView, reader_view};

    ghost Value = { ReaderView };

    ghost view = { λ r. reader_view r.seat.table_id r.seat.me.0.least r.seat.me.0.lowered };
}

/// The number that the word tells.
fn number_in(word: u64) -> Option<u64>
    ensures { result ≡ told word }
{
    if word < NOTHING { Some(word) } else { None }
}

impl Bound {
    /// A bound with this many readers (1 to 16), none of which knows a number.
    pub fn new(alloc: Global, readers: usize) -> Result<(Bound, Vec<Reader>), AllocError>
        requires { (1 ≤ readers) × (readers ≤ 16) }
        ensures count { IfOk result (λ r. vec_len r.1 ≡ readers) }
        ensures each { IfOk result (λ r. All (IsNewReader r.0) r.1.items) }
    {
        let mut all = Vec::with_capacity(alloc, readers)?;
        let (table, mut seat) = Table::<(), Known, (), Falls, Global>::of_words(
            alloc,
            &[NOTHING],
            &(),
        )?;
        for number in 0..readers {
            let _ = number;
            let another = table.shared.split_seat::<Twice>(&mut seat);
            all.push_reserved(Reader { seat: another });
        }
        Ok((Bound { table }, all))
    }

    /// The number as it is, which is at most what this reader knew; it knows it from then on.
    pub fn read(&self, reader: &mut Reader) -> Option<u64>
        requires { reader.old.bound ≡ self.now }
        ensures { IsRead reader.old result reader.new }
    {
        number_in(self.table.shared.load::<Sees>(&mut reader.seat, 0))
    }

    /// Lowers the number to this value, at most 12,304 wire bytes, where it isn't lower; the reader knows from then on that it is at
    /// most both, and has lowered it to this value and to no other.
    #[tactic(auto, using(crate::proofs::Knowing::told_falls, crate::proofs::Knowing::told_least, crate::proofs::Knowing::told_lowered))]
    pub fn lower(&self, reader: &mut Reader, value: u64)
        requires ours { reader.old.bound ≡ self.now }
        requires range { value ≤ 12304 }
        ensures { IsLowered reader.old value reader.new }
    {
        let _ = self
            .table
            .shared
            .fetch_min::<Lowers>(&mut reader.seat, 0, value);
    }
}
