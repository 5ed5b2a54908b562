// What stops a take: the lower layer's fault whole, with the sequential of the record.
ghost use Rattle.std.specs.Prelude.{◌≡◌};
ghost use Rattle.statement.specs.Faults.{lines_full, days_full, store_number, take_number, take_place, take_sequential, as_record, as_rating, as_store};

use cdr::faults::{Charged, Place, RecordFault};
use ledger::day::DayRow;
use ledger::line::LineRow;
use ledger::store::Full;
use rating::faults::RatingFault;

// A store that holds its most was asked for a new row.
#[derive(Clone, Copy, PartialEq, Eq, Debug)]
pub enum StoreFault {
    LinesFull,
    DaysFull,
}

// Spent: as many records were taken as a statement takes.
#[derive(Clone, Copy, PartialEq, Eq, Debug)]
pub enum TakeFault {
    Spent,
    Record(Charged<RecordFault>),
    Rating(Charged<RatingFault>),
    Store(Charged<StoreFault>),
}

impl From<Full<LineRow>> for StoreFault {
    ghost from_gives = { λ _ r. r ≡ lines_full };

    fn from(_e: Full<LineRow>) -> StoreFault {
        StoreFault::LinesFull
    }
}

impl From<Full<DayRow>> for StoreFault {
    ghost from_gives = { λ _ r. r ≡ days_full };

    fn from(_e: Full<DayRow>) -> StoreFault {
        StoreFault::DaysFull
    }
}

impl From<Charged<RecordFault>> for TakeFault {
    ghost from_gives = { λ e r. r ≡ as_record e };

    fn from(e: Charged<RecordFault>) -> TakeFault {
        TakeFault::Record(e)
    }
}

impl From<Charged<RatingFault>> for TakeFault {
    ghost from_gives = { λ e r. r ≡ as_rating e };

    fn from(e: Charged<RatingFault>) -> TakeFault {
        TakeFault::Rating(e)
    }
}

impl From<Charged<StoreFault>> for TakeFault {
    ghost from_gives = { λ e r. r ≡ as_store e };

    fn from(e: Charged<StoreFault>) -> TakeFault {
        TakeFault::Store(e)
    }
}

impl StoreFault {
    pub fn number(self) -> u8
        ensures { result ≡ store_number self }
    {
        match self {
            StoreFault::LinesFull => 12,
            StoreFault::DaysFull => 13,
        }
    }
}

impl TakeFault {
    pub fn number(self) -> u8
        ensures { result ≡ take_number self }
    {
        match self {
            TakeFault::Spent => 1,
            TakeFault::Record(c) => c.fault.number(),
            TakeFault::Rating(c) => c.fault.number(),
            TakeFault::Store(c) => c.fault.number(),
        }
    }

    // Where in the record it lies, or none where the record is not the cause.
    pub fn place(self) -> Option<Place>
        ensures { result ≡ take_place self }
    {
        match self {
            TakeFault::Record(c) => Some(c.fault.place()),
            TakeFault::Rating(c) => Some(c.fault.place()),
            TakeFault::Spent | TakeFault::Store(_) => None,
        }
    }

    // The sequential of the refused record, 0 where it has none.
    pub fn sequential(self) -> u64
        ensures { result ≡ take_sequential self }
    {
        match self {
            TakeFault::Spent => 0,
            TakeFault::Record(c) => c.sequential,
            TakeFault::Rating(c) => c.sequential,
            TakeFault::Store(c) => c.sequential,
        }
    }
}
