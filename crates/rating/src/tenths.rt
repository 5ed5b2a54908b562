// What rating answers.
ghost use Rattle.std.specs.Prelude.{◌≤◌};

use values::rates::Tariff;

// Tenths of a minute that one call is charged: no duration has more than 600,000.
#[derive(Clone, Copy, PartialEq, Eq, Debug)]
pub struct Tenths {
    pub count: u32,
    ghost few: { count ≤ 600000 },
}

// The price of a call: its tariff and its tenths.
#[derive(Clone, Copy, PartialEq, Eq)]
pub struct Rated {
    pub tariff: Tariff,
    pub tenths: Tenths,
}
