// Layers pile: a layer over a book is a book, so a layer stands over it again.
ghost use Rattle.std.specs.Prelude.{◌≡◌};
ghost use Rattle.rating.specs.Rating.{book_of, rated_by};
ghost use Rattle.books.specs.Books.{entries_of, pairs_of, flat_tables, correlated_tables};
ghost use Rattle.books.specs.Layers.{AsLayersPile};

use crate::correlation::Correlation;
use crate::flat::FlatBook;
use cdr::call::CallRecord;
use rating::book::TariffBook;
use rating::faults::RatingFault;
use rating::rate;
use rating::tenths::Rated;
use values::calendar::Day;
use values::labels::{Descriptor, Point};
use values::rates::Tariff;
use values::terms::Basis;

// The tariff through two layers over any book: the upper layer replaces the point, and the lower one what it became.
pub fn tariff_through_two<B: TariffBook>(
    book: &Correlation<Correlation<B>>,
    point: Point,
    descriptor: Descriptor,
    day: Day,
) -> Option<Tariff>
    ensures tariff { result ≡ (correlated_tables (pairs_of book.now) (correlated_tables (pairs_of book.now.below) (book_of B.TariffBook book.now.below.below))).tariffs point descriptor day }
    ensures cases { AsLayersPile }
{
    book.tariff(point, descriptor, day)
}

// Rates a call by two layers over a flat book.
pub fn rate_by_layers(
    book: &Correlation<Correlation<FlatBook>>,
    basis: Basis,
    call: &CallRecord,
) -> Result<Rated, RatingFault>
    ensures { result ≡ rated_by (correlated_tables (pairs_of book.now) (correlated_tables (pairs_of book.now.below) (flat_tables (entries_of book.now.below.below)))) basis.terms basis.reference call.now }
{
    rate(book, basis, call)
}
