// Judging the bodies of an agreement file.
ghost use Rattle.std.specs.Prelude.{◌≡◌};
ghost use Rattle.agreement.specs.Agreement.{stated_terms, well_formed, rising, judged};
ghost use Rattle.agreement.specs.Parts.{row_width};
ghost use Rattle.agreement.specs.Views.{seen};

use crate::contents::Bodies;
use crate::faults::AgreementFault;
use crate::parts::{PARTIES_ROW, Part};
use crate::rows::read_terms;
use crate::tables::{first_malformed, first_not_rising};
use values::terms::Terms;

// The terms of the PART row, or the refusal of the row.
fn check_terms(row: &[u8; PARTIES_ROW]) -> Result<Terms, AgreementFault>
    ensures { result ≡ stated_terms row.now }
{
    read_terms(row).ok_or(AgreementFault::Malformed {
        part: Part::Parties,
        row: 1,
    })
}

// Refuses the first malformed row.
fn check_rows<const N: usize>(part: Part, rows: &[[u8; N]]) -> Result<(), AgreementFault>
    requires { N ≡ row_width part }
    ensures { result ≡ well_formed part rows.now }
{
    match first_malformed(part, rows) {
        Some(row) => Err(AgreementFault::Malformed { part, row }),
        None => Ok(()),
    }
}

// Refuses the first row that is not above the one before it.
fn check_rising<const N: usize>(part: Part, rows: &[[u8; N]]) -> Result<(), AgreementFault>
    requires { N ≡ row_width part }
    ensures { result ≡ rising part rows.now }
{
    match first_not_rising(part, rows) {
        Some(row) => Err(AgreementFault::NotRising { part, row }),
        None => Ok(()),
    }
}

// The terms of the bodies, which have to be sound.
pub fn judge(bodies: &Bodies<'_>) -> Result<Terms, AgreementFault>
    ensures { result ≡ judged (seen bodies.now) }
{
    let terms = check_terms(bodies.parties)?;
    check_rows(Part::Scenarios, bodies.scenarios)?;
    check_rows(Part::Tariffs, bodies.tariffs)?;
    check_rising(Part::Scenarios, bodies.scenarios)?;
    check_rising(Part::Tariffs, bodies.tariffs)?;
    Ok(terms)
}
