// Months are made from their numbers after a check.
ghost use Rattle.std.specs.Prelude.{◌≡◌};
ghost use Rattle.values.specs.Calendar.{in_window, is_month, month_index};
ghost use Rattle.std.proofs.Common.{rules};
ghost use Rattle.values.specs.Values.{month_of};

use super::Month;
use crate::decimal::Decimal;

pub fn is_month(number: u32) -> bool
    ensures { result ≡ is_month number }
{
    number >= 200001 && number <= 209912 && number % 100 >= 1 && number % 100 <= 12
}

impl Month {
    pub fn new(number: u32) -> Option<Month>
        ensures { result ≡ month_of number }
    {
        if is_month(number) {
            Some(Month { number })
        } else {
            None
        }
    }

    pub fn number(self) -> u32
        ensures { result ≡ self.number }
    {
        self.number
    }

    // Months since January 2000.
    pub fn index(self) -> u32
        ensures { result ≡ month_index self.number }
    {
        (self.number / 100 - 2000) * 12 + (self.number % 100 - 1)
    }

    // Whether this month is the reference or one of so many months before it.
    pub fn is_within(self, reference: Month, back: u8) -> bool
        ensures { result ≡ in_window reference.number back self.number }
    {
        reference.number >= self.number && reference.index() <= self.index() + u32::from(back)
    }
}

impl Decimal for Month {
    const WIDTH: usize = 6;

    ghost WIDTH = { 6 };

    ghost of = { month_of };

    ghost narrow = { Prim.search rules };

    fn from_number(number: u32) -> Option<Month> {
        Month::new(number)
    }
}
