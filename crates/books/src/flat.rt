// The flat book: descriptors, each with one scenario and one tariff for all points and days.
ghost use Rattle.std.specs.Prelude.{◌≡◌, []};
ghost use Rattle.books.specs.Books.{entries_of, entry_of, descriptor_key, same_descriptor, most_descriptors, listed_entry, flat_tables};
ghost use Rattle.books.specs.Lists.{adding, Adds};

use crate::faults::ListFault;
use crate::fixed_list::FixedList;
use crate::keyed::Keyed;
use rating::book::TariffBook;
use values::calendar::Day;
use values::labels::{Descriptor, Point};
use values::rates::{Scenario, Tariff};

pub const MOST_DESCRIPTORS: usize = 16;

// A descriptor with its scenario and its tariff.
#[derive(Clone, Copy)]
pub struct Entry {
    pub descriptor: Descriptor,
    pub scenario: Scenario,
    pub tariff: Tariff,
}

impl Keyed for Entry {
    type Key = Descriptor;

    ghost keys = { descriptor_key };

    fn key(&self) -> Descriptor {
        self.descriptor
    }
}

#[derive(Drop)]
pub struct FlatBook {
    entries: FixedList<Entry, MOST_DESCRIPTORS>,
}

impl FlatBook {
    // A book that lists no descriptor.
    pub fn new() -> FlatBook
        ensures { entries_of result ≡ [] }
    {
        FlatBook {
            entries: FixedList::new(),
        }
    }

    // Lists a descriptor, unless it is listed already or the list is full.
    pub fn add(
        &mut self,
        descriptor: Descriptor,
        scenario: Scenario,
        tariff: Tariff,
    ) -> Result<(), ListFault>
        ensures answer { result ≡ adding same_descriptor descriptor_key most_descriptors (entry_of descriptor scenario tariff) (entries_of self.old) }
        ensures after { Adds entries_of (entry_of descriptor scenario tariff) self.old self.new result }
    {
        self.entries.add(Entry {
            descriptor,
            scenario,
            tariff,
        })
    }

    // The entry of a descriptor.
    fn find(&self, descriptor: Descriptor) -> Option<Entry>
        ensures { result ≡ listed_entry descriptor (entries_of self.now) }
    {
        self.entries.find(descriptor)
    }
}

impl TariffBook for FlatBook {
    ghost scenarios = { λ b. (flat_tables (entries_of b)).scenarios };

    ghost tariffs = { λ b. (flat_tables (entries_of b)).tariffs };

    fn scenario(&self, descriptor: Descriptor) -> Option<Scenario> {
        self.find(descriptor).map(|entry| entry.scenario)
    }

    fn tariff(&self, _point: Point, descriptor: Descriptor, _day: Day) -> Option<Tariff> {
        self.find(descriptor).map(|entry| entry.tariff)
    }
}
