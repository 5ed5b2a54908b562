// The correlation layer: pairs of points over any book.
ghost use Rattle.std.specs.Prelude.{◌≡◌, []};
ghost use Rattle.rating.specs.Rating.{book_of};
ghost use Rattle.books.specs.Books.{pairs_of, pair_of, first_key, same_point, most_pairs, asked_as, correlated_tables};
ghost use Rattle.books.specs.Lists.{adding, Adds};

use crate::faults::ListFault;
use crate::fixed_list::FixedList;
use crate::keyed::Keyed;
use rating::book::TariffBook;
use values::calendar::Day;
use values::labels::{Descriptor, Point};
use values::rates::{Scenario, Tariff};

pub const MOST_PAIRS: usize = 64;

// The first point is asked below as the second.
#[derive(Clone, Copy)]
pub struct Pair {
    pub first: Point,
    pub second: Point,
}

impl Keyed for Pair {
    type Key = Point;

    ghost keys = { first_key };

    fn key(&self) -> Point {
        self.first
    }
}

// A book and the pairs by which it is asked.
#[derive(Drop)]
pub struct Correlation<B> {
    below: B,
    pairs: FixedList<Pair, MOST_PAIRS>,
}

impl<B> Correlation<B> {
    // A layer that changes nothing yet.
    pub fn new(below: B) -> Correlation<B>
        ensures pairs { pairs_of result ≡ [] }
        ensures below { result.below ≡ below }
    {
        Correlation {
            below,
            pairs: FixedList::new(),
        }
    }

    // Lists a pair, unless its first point is listed already or the list is full.
    pub fn add(&mut self, first: Point, second: Point) -> Result<(), ListFault>
        ensures answer { result ≡ adding same_point first_key most_pairs (pair_of first second) (pairs_of self.old) }
        ensures after { Adds pairs_of (pair_of first second) self.old self.new result }
        ensures below { self.new.below ≡ self.old.below }
    {
        self.pairs.add(Pair { first, second })
    }

    // The point as which a point is asked below. It is replaced once.
    fn asked_as(&self, point: Point) -> Point
        ensures { result ≡ asked_as (pairs_of self.now) point }
    {
        self.pairs.find(point).map_or(point, |pair| pair.second)
    }
}

impl<B: TariffBook> TariffBook for Correlation<B> {
    ghost scenarios = { λ c. (correlated_tables (pairs_of c) (book_of B.TariffBook c.below)).scenarios };

    ghost tariffs = { λ c. (correlated_tables (pairs_of c) (book_of B.TariffBook c.below)).tariffs };

    fn scenario(&self, descriptor: Descriptor) -> Option<Scenario> {
        self.below.scenario(descriptor)
    }

    fn tariff(&self, point: Point, descriptor: Descriptor, day: Day) -> Option<Tariff> {
        self.below.tariff(self.asked_as(point), descriptor, day)
    }
}
