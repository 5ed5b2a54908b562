// The terms between two carriers.
mod agreed;

ghost use Rattle.std.specs.Prelude.{◌≤◌};
ghost use Rattle.values.specs.Rates.{IsCarrier};

use crate::calendar::Month;
use crate::rates::TaxRates;

// A carrier by its code, 001 to 999.
#[derive(Clone, Copy, PartialEq, Eq, PartialOrd, Ord)]
pub struct Carrier {
    code: u32,
    ghost ok: { IsCarrier code },
}

// Who bills whom, how many months before the reference month may still be billed, and the tax rates.
#[derive(Clone, Copy, PartialEq, Eq)]
pub struct Terms {
    creditor: Carrier,
    debtor: Carrier,
    back: u8,
    rates: TaxRates,
    ghost ok: { back ≤ 2 },
}

// What a settlement stands on: the terms, and the month that its DETRAF refers to.
#[derive(Clone, Copy, PartialEq, Eq)]
pub struct Basis {
    pub terms: Terms,
    pub reference: Month,
}
