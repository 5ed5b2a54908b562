// Days of the calendar.
ghost use Rattle.std.specs.Prelude.{◌≡◌};
ghost use Rattle.values.specs.Calendar.{days_in, is_day, is_leap};
ghost use Rattle.std.proofs.Common.{rules};
ghost use Rattle.values.specs.Values.{day_of, month_of_day};

use super::months::is_month;
use super::{Day, Month};
use crate::decimal::Decimal;

// Whether February of the year has 29 days.
fn is_leap(year: u32) -> bool
    ensures { result ≡ is_leap year }
{
    year % 4 == 0 && (year % 100 != 0 || year % 400 == 0)
}

// The number of days of a month AAAAMM.
fn days_in(month: u32) -> u32
    ensures { result ≡ days_in month }
{
    match month % 100 {
        2 => { if is_leap(month / 100) { 29 } else { 28 } }
        4 | 6 | 9 | 11 => 30,
        _ => 31,
    }
}

fn is_day(number: u32) -> bool
    ensures { result ≡ is_day number }
{
    is_month(number / 100) && number % 100 >= 1 && number % 100 <= days_in(number / 100)
}

impl Day {
    pub fn new(number: u32) -> Option<Day>
        ensures { result ≡ day_of number }
    {
        if is_day(number) {
            Some(Day { number })
        } else {
            None
        }
    }

    pub fn number(self) -> u32
        ensures { result ≡ self.number }
    {
        self.number
    }

    pub fn month(self) -> Month
        ensures { result ≡ month_of_day self }
    {
        Month {
            number: self.number / 100,
        }
    }
}

impl Decimal for Day {
    const WIDTH: usize = 8;

    ghost WIDTH = { 8 };

    ghost of = { day_of };

    ghost narrow = { Prim.search rules };

    fn from_number(number: u32) -> Option<Day> {
        Day::new(number)
    }
}
