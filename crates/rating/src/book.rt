// The interface of tariff books.
ghost use Rattle.std.specs.Prelude.{◌≡◌, Option};
ghost use Rattle.values.specs.declared.calendar.Day.{Day};
ghost use Rattle.values.specs.declared.labels.Descriptor.{Descriptor};
ghost use Rattle.values.specs.declared.labels.Point.{Point};
ghost use Rattle.values.specs.declared.rates.Scenario.{Scenario};
ghost use Rattle.values.specs.declared.rates.Tariff.{Tariff};

use values::calendar::Day;
use values::labels::{Descriptor, Point};
use values::rates::{Scenario, Tariff};

// A book by its two tables. Asking changes nothing.
pub trait TariffBook {
    // the scenario of a descriptor
    ghost scenarios: { Self → Descriptor → Option Scenario };

    // the tariff of a point, a descriptor and a day
    ghost tariffs: { Self → Point → Descriptor → Day → Option Tariff };

    fn scenario(&self, descriptor: Descriptor) -> Option<Scenario>
        ensures { result ≡ scenarios self.now descriptor };

    fn tariff(&self, point: Point, descriptor: Descriptor, day: Day) -> Option<Tariff>
        ensures { result ≡ tariffs self.now point descriptor day };
}
