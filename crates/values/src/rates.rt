// Tariffs, tax rates and scenarios.
mod scenarios;
mod tariffs;
mod taxes;

ghost use Rattle.std.specs.Prelude.{◌+◌, ◌≤◌};
ghost use Rattle.values.specs.Rates.{IsScenario};

// A tariff in millionths of a real per minute.
#[derive(Clone, Copy, PartialEq, Eq, PartialOrd, Ord)]
pub struct Tariff {
    number: u32,
    ghost ok: { number ≤ 9999999 },
}

// The rates of PIS/COFINS and ICMS in hundred-thousandths, together at most a half.
#[derive(Clone, Copy, PartialEq, Eq)]
pub struct TaxRates {
    pis: u32,
    icms: u32,
    ghost ok: { pis + icms ≤ 50000 },
}

// How calls with a descriptor are charged, in seconds: the least heard that counts, the length of a message
// that is not charged, and the least that is billed.
#[derive(Clone, Copy, PartialEq, Eq)]
pub struct Scenario {
    minimum: u32,
    message: u32,
    least: u32,
    ghost ok: { IsScenario minimum message least },
}
