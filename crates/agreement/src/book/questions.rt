// Making the file book, and what it answers.
ghost use Rattle.std.specs.Prelude.{◌≡◌, true};
ghost use Rattle.agreement.specs.Books.{scenario_table, tariff_table, scenarios_in, tariffs_in, if_ok};
ghost use Rattle.agreement.specs.Agreement.{judged};
ghost use Rattle.agreement.specs.Sound.{is_sound};
ghost use Rattle.agreement.specs.Views.{seen};
ghost use Rattle.agreement.specs.declared.parts.Part.TheVariants.{Scenarios, Tariffs};

use super::FileBook;
use crate::bodies::judge;
use crate::contents::{Bodies, read_contents};
use crate::lookup::{find_scenario, find_tariff};
use crate::parts::{SCENARIO_ROW, TARIFF_ROW};
use rating::book::TariffBook;
use values::calendar::Day;
use values::labels::{Descriptor, Point};
use values::rates::{Scenario, Tariff};

impl<'a> FileBook<'a> {
    // The book of rows that are sound.
    fn over(scenarios: &'a [[u8; SCENARIO_ROW]], tariffs: &'a [[u8; TARIFF_ROW]]) -> FileBook<'a>
        requires scenarios { is_sound Scenarios scenarios.now ≡ true }
        requires tariffs { is_sound Tariffs tariffs.now ≡ true }
        ensures scenarios { result.scenarios.now ≡ scenarios.now }
        ensures tariffs { result.tariffs.now ≡ tariffs.now }
    {
        FileBook { scenarios, tariffs }
    }

    // The book of the bodies where they are judged sound, and else the empty book.
    fn of_bodies(bodies: &Bodies<'a>) -> FileBook<'a>
        ensures scenarios { result.scenarios.now ≡ (if_ok (judged (seen bodies.now)) (seen bodies.now)).scenarios }
        ensures tariffs { result.tariffs.now ≡ (if_ok (judged (seen bodies.now)) (seen bodies.now)).tariffs }
    {
        match judge(bodies) {
            Ok(_) => FileBook::over(bodies.scenarios, bodies.tariffs),
            Err(_) => FileBook::over(&[], &[]),
        }
    }

    // The book of an agreement; of bytes that opening refuses, the empty book.
    pub fn new(bytes: &'a [u8]) -> FileBook<'a>
        ensures scenarios { scenario_table result.scenarios.now ≡ scenarios_in bytes.now }
        ensures tariffs { tariff_table result.tariffs.now ≡ tariffs_in bytes.now }
    {
        match read_contents(bytes) {
            Ok(bodies) => FileBook::of_bodies(&bodies),
            Err(_) => FileBook::over(&[], &[]),
        }
    }
}

impl<'a> TariffBook for FileBook<'a> {
    ghost scenarios = { λ b. scenario_table b.scenarios.now };

    ghost tariffs = { λ b. tariff_table b.tariffs.now };

    fn scenario(&self, descriptor: Descriptor) -> Option<Scenario> {
        find_scenario(self.scenarios, descriptor)
    }

    fn tariff(&self, point: Point, descriptor: Descriptor, day: Day) -> Option<Tariff> {
        find_tariff(self.tariffs, point, descriptor, day)
    }
}
