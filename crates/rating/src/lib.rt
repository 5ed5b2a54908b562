// Rating of calls.
#![tactic(auto)]

pub mod book;
pub mod faults;
pub mod tenths;

ghost use Rattle.std.specs.Prelude.{◌≡◌};
ghost use Rattle.rating.specs.Boundary.{AtTheBoundary};
ghost use Rattle.rating.specs.Charge.{charge};
ghost use Rattle.rating.specs.Rating.{book_of, rated_by};

use book::TariffBook;
use cdr::call::CallRecord;
use faults::RatingFault;
use tenths::{Rated, Tenths};
use values::calendar::Duration;
use values::rates::Scenario;
use values::terms::Basis;

// The tenths of a minute that a call of this duration is charged, or none where it does not count.
pub fn tenths_of(scenario: Scenario, duration: Duration) -> Option<Tenths>
    ensures value { result ≡ charge scenario duration }
    ensures boundary { AtTheBoundary }
{
    let heard = duration.seconds().saturating_sub(scenario.message());
    if heard < scenario.minimum() {
        return None;
    }
    let billed = heard.max(scenario.least());
    Some(Tenths {
        count: billed.div_ceil(6),
    })
}

// The tariff and tenths of a call by a book, on this basis.
#[tactic(auto, unfolding(crate::specs::Rating::rated_by))]
pub fn rate<B: TariffBook>(book: &B, basis: Basis, call: &CallRecord) -> Result<Rated, RatingFault>
    ensures { result ≡ rated_by (book_of B.TariffBook book.now) basis.terms basis.reference call.now }
{
    if !basis.admits(call.day.month()) {
        return Err(RatingFault::Month);
    }
    let scenario = book
        .scenario(call.descriptor)
        .ok_or(RatingFault::NoScenario)?;
    let tenths = tenths_of(scenario, call.duration).ok_or(RatingFault::TooShort)?;
    let tariff = book
        .tariff(call.point, call.descriptor, call.day)
        .ok_or(RatingFault::NoTariff)?;
    Ok(Rated { tariff, tenths })
}
