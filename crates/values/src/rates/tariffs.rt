// Tariffs are made from their numbers after a check.
ghost use Rattle.std.specs.Prelude.{◌≡◌};
ghost use Rattle.std.proofs.Common.{rules};
ghost use Rattle.values.specs.Values.{tariff_of};

use super::Tariff;
use crate::decimal::Decimal;

impl Tariff {
    pub fn new(number: u32) -> Option<Tariff>
        ensures { result ≡ tariff_of number }
    {
        if number <= 9999999 {
            Some(Tariff { number })
        } else {
            None
        }
    }

    pub fn number(self) -> u32
        ensures { result ≡ self.number }
    {
        self.number
    }
}

impl Decimal for Tariff {
    const WIDTH: usize = 7;

    ghost WIDTH = { 7 };

    ghost of = { tariff_of };

    ghost narrow = { Prim.search rules };

    fn from_number(number: u32) -> Option<Tariff> {
        Tariff::new(number)
    }
}
