// Traffic is made from numbers after a check, and adds up to its largest values.
ghost use Rattle.std.specs.Prelude.{◌≡◌};
ghost use Rattle.ledger.specs.Rows.{traffic_of, of_call, plus};

use super::Traffic;

const MOST_CALLS: u64 = 999_999_999_999;

const MOST_TENTHS: u64 = 9_999_999_999_999;

impl Traffic {
    pub fn new(calls: u64, tenths: u64) -> Option<Traffic>
        ensures { result ≡ traffic_of calls tenths }
    {
        if calls <= MOST_CALLS && tenths <= MOST_TENTHS {
            Some(Traffic { calls, tenths })
        } else {
            None
        }
    }

    // One call of so many tenths.
    pub fn of_call(tenths: u64) -> Traffic
        ensures { result ≡ of_call tenths }
    {
        Traffic {
            calls: 1,
            tenths: tenths.min(MOST_TENTHS),
        }
    }

    // Both together: sums stop at their largest values.
    pub fn plus(self, other: Traffic) -> Traffic
        ensures { result ≡ plus self other }
    {
        Traffic {
            calls: (self.calls + other.calls).min(MOST_CALLS),
            tenths: (self.tenths + other.tenths).min(MOST_TENTHS),
        }
    }

    pub fn calls(self) -> u64
        ensures { result ≡ self.calls }
    {
        self.calls
    }

    pub fn tenths(self) -> u64
        ensures { result ≡ self.tenths }
    {
        self.tenths
    }
}
