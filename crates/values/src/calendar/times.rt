// Times of day.
ghost use Rattle.std.specs.Prelude.{◌≡◌};
ghost use Rattle.std.proofs.Common.{rules};
ghost use Rattle.values.specs.Values.{time_of, earlier, later};

use super::TimeOfDay;
use crate::decimal::Decimal;

impl TimeOfDay {
    pub fn new(number: u32) -> Option<TimeOfDay>
        ensures { result ≡ time_of number }
    {
        if number < 240000 && number / 100 % 100 < 60 && number % 100 < 60 {
            Some(TimeOfDay { number })
        } else {
            None
        }
    }

    pub fn number(self) -> u32
        ensures { result ≡ self.number }
    {
        self.number
    }

    pub fn earlier(self, other: TimeOfDay) -> TimeOfDay
        ensures { result ≡ earlier self other }
    {
        self.min(other)
    }

    pub fn later(self, other: TimeOfDay) -> TimeOfDay
        ensures { result ≡ later self other }
    {
        self.max(other)
    }
}

impl Decimal for TimeOfDay {
    const WIDTH: usize = 6;

    ghost WIDTH = { 6 };

    ghost of = { time_of };

    ghost narrow = { Prim.search rules };

    fn from_number(number: u32) -> Option<TimeOfDay> {
        TimeOfDay::new(number)
    }
}
