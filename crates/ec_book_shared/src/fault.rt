//! Why a shared book isn't closed.

use ec_book::Finished;

/// Why a shared book isn't closed. Other units give all up.
#[derive(Drop)]
pub enum CloseFault {
    /// The receipts of a seat aren't its entries of the log, or an entry is no seat's.
    Journal(Finished),
    /// Memory was refused. Closing takes none, so this isn't answered.
    OutOfMemory,
    /// A seat is for other units, or for another order of them, than the book.
    OtherUnits,
}
