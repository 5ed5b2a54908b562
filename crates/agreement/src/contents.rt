// The contents of an agreement file: one entry for each part.
ghost use Rattle.std.specs.Prelude.{◌≡◌, ◌≤◌, length, IfSome, IfOk};
ghost use Rattle.agreement.specs.Contents.{stated_rows, entry_rows, sized, entries, contents};
ghost use Rattle.agreement.specs.Views.{States};
ghost use Rattle.agreement.specs.Parts.{most_rows};

use crate::faults::AgreementFault;
use crate::parts::{PARTIES_ROW, Part, SCENARIO_ROW, TARIFF_ROW};
use digits::read_decimal;

// Where the bodies begin.
const PARTIES_AT: usize = 48;

const SCENARIOS_AT: usize = PARTIES_AT + PARTIES_ROW;

// The row of PART, and the rows of the parts after it.
#[derive(Clone, Copy)]
pub struct Bodies<'a> {
    pub parties: &'a [u8; PARTIES_ROW],
    pub scenarios: &'a [[u8; SCENARIO_ROW]],
    pub tariffs: &'a [[u8; TARIFF_ROW]],
}

// The rows that an entry states, or none where the entry is bad.
fn stated_rows(entry: &[u8], part: Part, place: usize) -> Option<usize>
    requires { length entry.now ≡ 16 }
    ensures value { result ≡ stated_rows part place entry.now }
    ensures within { IfSome result (λ n. n ≤ most_rows part) }
{
    if &entry[0..4] != part.name() {
        return None;
    }
    if read_decimal(&entry[4..10], 6)? as usize != place {
        return None;
    }
    let rows = read_decimal(&entry[10..16], 6)?;
    if !(part.least_rows()..=part.most_rows()).contains(&rows) {
        return None;
    }
    Some(rows as usize)
}

// The rows that an entry states, or the refusal of its part.
fn entry_rows(entry: &[u8], part: Part, place: usize) -> Result<usize, AgreementFault>
    requires { length entry.now ≡ 16 }
    ensures value { result ≡ entry_rows part place entry.now }
    ensures within { IfOk result (λ n. n ≤ most_rows part) }
{
    stated_rows(entry, part, place).ok_or(AgreementFault::Contents { part })
}

// The bodies of a file with so many rows, or the refusal of its length.
fn cut(bytes: &[u8], scenarios: usize, tariffs: usize) -> Result<Bodies<'_>, AgreementFault>
    requires { (scenarios ≤ 200) × (tariffs ≤ 1900) }
    ensures { States (sized scenarios tariffs bytes.now) result }
{
    let tariffs_at = SCENARIOS_AT + SCENARIO_ROW * scenarios;
    if bytes.len() != tariffs_at + TARIFF_ROW * tariffs {
        return Err(AgreementFault::Length);
    }
    let parties = bytes[PARTIES_AT..]
        .first_chunk()
        .ok_or(AgreementFault::Length)?;
    Ok(Bodies {
        parties,
        scenarios: bytes[SCENARIOS_AT..tariffs_at].as_chunks().0,
        tariffs: bytes[tariffs_at..].as_chunks().0,
    })
}

// The bodies that the three entries state.
fn read_entries(bytes: &[u8]) -> Result<Bodies<'_>, AgreementFault>
    requires { 48 ≤ length bytes.now }
    ensures { States (entries bytes.now) result }
{
    entry_rows(&bytes[0..16], Part::Parties, PARTIES_AT)?;
    let scenarios = entry_rows(&bytes[16..32], Part::Scenarios, SCENARIOS_AT)?;
    let tariffs = entry_rows(
        &bytes[32..48],
        Part::Tariffs,
        SCENARIOS_AT + SCENARIO_ROW * scenarios,
    )?;
    cut(bytes, scenarios, tariffs)
}

// The bodies that the contents of a file state.
pub fn read_contents(bytes: &[u8]) -> Result<Bodies<'_>, AgreementFault>
    ensures { States (contents bytes.now) result }
{
    if bytes.len() < PARTIES_AT {
        return Err(AgreementFault::Length);
    }
    read_entries(bytes)
}
