// Carriers and terms are made after a check.
ghost use Rattle.std.specs.Prelude.{◌≡◌};
ghost use Rattle.std.proofs.Common.{rules};
ghost use Rattle.values.specs.Calendar.{in_window};
ghost use Rattle.values.specs.Values.{carrier_of, terms_of};

use super::{Basis, Carrier, Terms};
use crate::calendar::Month;
use crate::decimal::Decimal;
use crate::rates::TaxRates;

impl Carrier {
    pub fn new(code: u32) -> Option<Carrier>
        ensures { result ≡ carrier_of code }
    {
        if code >= 1 && code <= 999 {
            Some(Carrier { code })
        } else {
            None
        }
    }

    pub fn code(self) -> u32
        ensures { result ≡ self.code }
    {
        self.code
    }
}

impl Decimal for Carrier {
    const WIDTH: usize = 3;

    ghost WIDTH = { 3 };

    ghost of = { carrier_of };

    ghost narrow = { Prim.search rules };

    fn from_number(number: u32) -> Option<Carrier> {
        Carrier::new(number)
    }
}

impl Terms {
    // None where more than two months back are asked.
    pub fn new(creditor: Carrier, debtor: Carrier, back: u8, rates: TaxRates) -> Option<Terms>
        ensures { result ≡ terms_of creditor debtor back rates }
    {
        if back <= 2 {
            Some(Terms {
                creditor,
                debtor,
                back,
                rates,
            })
        } else {
            None
        }
    }

    pub fn creditor(self) -> Carrier
        ensures { result ≡ self.creditor }
    {
        self.creditor
    }

    pub fn debtor(self) -> Carrier
        ensures { result ≡ self.debtor }
    {
        self.debtor
    }

    // The months before the reference month that may still be billed.
    pub fn months_back(self) -> u8
        ensures { result ≡ self.back }
    {
        self.back
    }

    pub fn rates(self) -> TaxRates
        ensures { result ≡ self.rates }
    {
        self.rates
    }
}

impl Basis {
    // Whether the month may still be billed: it is the reference month, or one of so many before it as the terms say.
    pub fn admits(self, month: Month) -> bool
        ensures { result ≡ in_window self.reference.number self.terms.back month.number }
    {
        month.is_within(self.reference, self.terms.back)
    }
}
