// Months, days, times of day and durations.
mod days;
mod durations;
mod months;
mod times;

ghost use Rattle.std.specs.Prelude.{◌≤◌};
ghost use Rattle.values.specs.Calendar.{IsMonth, IsDay, IsTime};

// A month AAAAMM, from 200001 to 209912.
#[derive(Clone, Copy, PartialEq, Eq, PartialOrd, Ord)]
pub struct Month {
    number: u32,
    ghost ok: { IsMonth number },
}

// A calendar day AAAAMMDD of a month of the range.
#[derive(Clone, Copy, PartialEq, Eq, PartialOrd, Ord)]
pub struct Day {
    number: u32,
    ghost ok: { IsDay number },
}

// A time of day HHMMSS.
#[derive(Clone, Copy, PartialEq, Eq, PartialOrd, Ord)]
pub struct TimeOfDay {
    number: u32,
    ghost ok: { IsTime number },
}

// The duration of a call in seconds, as HHHMMSS can write it.
#[derive(Clone, Copy, PartialEq, Eq, PartialOrd, Ord)]
pub struct Duration {
    seconds: u32,
    ghost ok: { seconds ≤ 3599999 },
}
