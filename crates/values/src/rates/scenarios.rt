// Scenarios.
ghost use Rattle.std.specs.Prelude.{◌≡◌};
ghost use Rattle.values.specs.Values.{scenario_of};

use super::Scenario;

impl Scenario {
    pub fn new(minimum: u32, message: u32, least: u32) -> Option<Scenario>
        ensures { result ≡ scenario_of minimum message least }
    {
        if minimum <= 999 && message <= 999 && least <= 999 {
            Some(Scenario {
                minimum,
                message,
                least,
            })
        } else {
            None
        }
    }

    pub fn minimum(self) -> u32
        ensures { result ≡ self.minimum }
    {
        self.minimum
    }

    pub fn message(self) -> u32
        ensures { result ≡ self.message }
    {
        self.message
    }

    pub fn least(self) -> u32
        ensures { result ≡ self.least }
    {
        self.least
    }
}
