// What the rows answer to questions.
ghost use Rattle.std.specs.Prelude.{◌≡◌, true};
ghost use Rattle.agreement.specs.Books.{scenario_table, tariff_table};
ghost use Rattle.agreement.specs.Keys.{tariff_key};
ghost use Rattle.agreement.specs.Sound.{is_sound};
ghost use Rattle.agreement.specs.declared.parts.Part.TheVariants.{Scenarios, Tariffs};

use crate::parts::{SCENARIO_ROW, TARIFF_ROW};
use crate::rows::read_scenario;
use digits::{write_be, write_decimal};
use values::calendar::Day;
use values::decimal::Decimal;
use values::labels::{Descriptor, Point};
use values::rates::{Scenario, Tariff};

// The scenario of the CENA row with this descriptor.
pub fn find_scenario(rows: &[[u8; SCENARIO_ROW]], descriptor: Descriptor) -> Option<Scenario>
    requires { is_sound Scenarios rows.now ≡ true }
    ensures { result ≡ scenario_table rows.now descriptor }
{
    let key = descriptor.bytes();
    let i = rows.binary_search_by(|row| row[..5].cmp(&key[..])).ok()?;
    read_scenario(&rows[i][5..14])
}

// The first bytes that a TARI row of this point and this descriptor has from this day on.
fn key_from(point: Point, descriptor: Descriptor, day: Day) -> [u8; 23]
    ensures { result ≡ tariff_key point descriptor day }
{
    let mut key = [0; 23];
    write_be(&mut key[0..10], point.number());
    write_be(&mut key[10..15], descriptor.number() as u128);
    write_decimal(&mut key[15..23], day.number() as u64);
    key
}

// The tariff of the TARI row of this point and this descriptor with the latest first day not after the day.
pub fn find_tariff(
    rows: &[[u8; TARIFF_ROW]],
    point: Point,
    descriptor: Descriptor,
    day: Day,
) -> Option<Tariff>
    requires { is_sound Tariffs rows.now ≡ true }
    ensures { result ≡ tariff_table rows.now point descriptor day }
{
    let key = key_from(point, descriptor, day);
    // By `cmp`, which passes equal bytes in groups, where `<=` goes through them one by one.
    let last = rows
        .partition_point(|row| row[..23].cmp(&key[..]).is_le())
        .checked_sub(1)?;
    let row = &rows[last];
    if row[..15] != key[..15] {
        return None;
    }
    Tariff::read(&row[23..30])
}
