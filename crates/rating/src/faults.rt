// What stops a call in rating.
ghost use Rattle.std.specs.Prelude.{◌≡◌};
ghost use Rattle.rating.specs.Faults.{rating_number, rating_place};

use cdr::faults::Place;
use cdr::fields::Field;

#[derive(Clone, Copy, PartialEq, Eq, Debug)]
pub enum RatingFault {
    Month,
    NoScenario,
    TooShort,
    NoTariff,
}

impl RatingFault {
    pub fn number(self) -> u8
        ensures { result ≡ rating_number self }
    {
        match self {
            RatingFault::Month => 8,
            RatingFault::NoScenario => 9,
            RatingFault::TooShort => 10,
            RatingFault::NoTariff => 11,
        }
    }

    pub fn place(self) -> Place
        ensures { result ≡ rating_place self }
    {
        match self {
            RatingFault::Month => Place::Field(Field::Date),
            RatingFault::NoScenario => Place::Field(Field::Descriptor),
            RatingFault::TooShort => Place::Field(Field::Duration),
            RatingFault::NoTariff => Place::Field(Field::Point),
        }
    }
}
