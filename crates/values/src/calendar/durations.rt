// Durations of calls.
ghost use Rattle.std.specs.Prelude.{◌≡◌};
ghost use Rattle.std.proofs.Common.{rules};
ghost use Rattle.values.specs.Values.{duration_of};

use super::Duration;
use crate::decimal::Decimal;

impl Duration {
    // From HHHMMSS, minutes and seconds under 60.
    pub fn new(number: u32) -> Option<Duration>
        ensures { result ≡ duration_of number }
    {
        if number < 10000000 && number / 100 % 100 < 60 && number % 100 < 60 {
            let seconds = number / 10000 * 3600 + number / 100 % 100 * 60 + number % 100;
            Some(Duration { seconds })
        } else {
            None
        }
    }

    pub fn seconds(self) -> u32
        ensures { result ≡ self.seconds }
    {
        self.seconds
    }
}

impl Decimal for Duration {
    const WIDTH: usize = 7;

    ghost WIDTH = { 7 };

    ghost of = { duration_of };

    ghost narrow = { Prim.search rules };

    fn from_number(number: u32) -> Option<Duration> {
        Duration::new(number)
    }
}
