// What the rows of each part say.
ghost use Rattle.std.specs.Prelude.{◌≡◌, length};
ghost use Rattle.agreement.specs.Parts.{row_width};
ghost use Rattle.agreement.specs.RowFields.{rates_in, terms_in, scenario_in, is_scenario_row, is_tariff_row, is_row};

use crate::parts::Part;
use digits::read_decimal;
use values::calendar::Day;
use values::decimal::Decimal;
use values::labels::{Descriptor, Point};
use values::rates::{Scenario, Tariff, TaxRates};
use values::terms::{Carrier, Terms};

// The rates of PIS/COFINS and ICMS, five digits each.
fn read_rates(bytes: &[u8]) -> Option<TaxRates>
    requires { length bytes.now ≡ 10 }
    ensures { result ≡ rates_in bytes.now }
{
    let pis = read_decimal(&bytes[0..5], 5)? as u32;
    let icms = read_decimal(&bytes[5..10], 5)? as u32;
    TaxRates::new(pis, icms)
}

// The terms that a PART row states.
pub fn read_terms(row: &[u8]) -> Option<Terms>
    requires { length row.now ≡ 17 }
    ensures { result ≡ terms_in row.now }
{
    let creditor = Carrier::read(&row[0..3])?;
    let debtor = Carrier::read(&row[3..6])?;
    let back = read_decimal(&row[6..7], 1)? as u8;
    let rates = read_rates(&row[7..17])?;
    Terms::new(creditor, debtor, back, rates)
}

// Minimum, message and least billed, three digits each.
pub fn read_scenario(bytes: &[u8]) -> Option<Scenario>
    requires { length bytes.now ≡ 9 }
    ensures { result ≡ scenario_in bytes.now }
{
    let minimum = read_decimal(&bytes[0..3], 3)? as u32;
    let message = read_decimal(&bytes[3..6], 3)? as u32;
    let least = read_decimal(&bytes[6..9], 3)? as u32;
    Scenario::new(minimum, message, least)
}

// Whether the bytes are a well-formed CENA row.
fn is_scenario_row(row: &[u8]) -> bool
    requires { length row.now ≡ 14 }
    ensures { result ≡ is_scenario_row row.now }
{
    Descriptor::read(&row[0..5]).is_some() && read_scenario(&row[5..14]).is_some()
}

// Whether the bytes are a well-formed TARI row.
fn is_tariff_row(row: &[u8]) -> bool
    requires { length row.now ≡ 30 }
    ensures { result ≡ is_tariff_row row.now }
{
    Point::read(&row[0..10]).is_some()
        && Descriptor::read(&row[10..15]).is_some()
        && Day::read(&row[15..23]).is_some()
        && Tariff::read(&row[23..30]).is_some()
}

impl Part {
    // Whether the bytes are a well-formed row of this part.
    pub(crate) fn is_row(self, row: &[u8]) -> bool
        requires { length row.now ≡ row_width self }
        ensures { result ≡ is_row self row.now }
    {
        match self {
            Part::Parties => read_terms(row).is_some(),
            Part::Scenarios => is_scenario_row(row),
            Part::Tariffs => is_tariff_row(row),
        }
    }
}
