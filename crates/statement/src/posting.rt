// A rated call as it goes into its line and its day.
ghost use Rattle.std.specs.Prelude.{◌≡◌};
ghost use Rattle.statement.specs.Postings.{posting_of, line_for, day_for, booked_of};

use cdr::call::CallRecord;
use ledger::day::{DayKey, DayRow};
use ledger::line::{LineKey, LineRow};
use ledger::traffic::Traffic;
use rating::tenths::{Rated, Tenths};
use values::calendar::{Day, TimeOfDay};

#[derive(Clone, Copy, PartialEq, Eq)]
pub struct Posting {
    key: LineKey,
    day: Day,
    time: TimeOfDay,
    tenths: Tenths,
}

// What a booked record answers: the key of its line, its day and its tenths.
#[derive(Clone, Copy, PartialEq, Eq)]
pub struct Booked {
    pub key: LineKey,
    pub day: Day,
    pub tenths: Tenths,
}

impl Posting {
    pub fn new(call: &CallRecord, rated: Rated) -> Posting
        ensures { result ≡ posting_of call.now rated }
    {
        let key = LineKey {
            month: call.day.month(),
            point: call.point,
            descriptor: call.descriptor,
            tariff: rated.tariff,
        };
        Posting {
            key,
            day: call.day,
            time: call.time,
            tenths: rated.tenths,
        }
    }

    // One call in its line.
    pub fn line(&self) -> LineRow
        ensures { result ≡ line_for self.now }
    {
        LineRow {
            key: self.key,
            traffic: Traffic::of_call(u64::from(self.tenths.count)),
        }
    }

    // One call in its day, which starts when the call does.
    pub fn day(&self) -> DayRow
        ensures { result ≡ day_for self.now }
    {
        let key = DayKey {
            day: self.day,
            point: self.key.point,
        };
        let tenths = u64::from(self.tenths.count);
        DayRow {
            key,
            traffic: Traffic::of_call(tenths),
            earliest: self.time,
            latest: self.time,
        }
    }

    pub fn booked(&self) -> Booked
        ensures { result ≡ booked_of self.now }
    {
        Booked {
            key: self.key,
            day: self.day,
            tenths: self.tenths,
        }
    }
}
