// Tax rates.
ghost use Rattle.std.specs.Prelude.{◌≡◌};
ghost use Rattle.values.specs.Values.{rates_of};

use super::TaxRates;

impl TaxRates {
    pub fn new(pis: u32, icms: u32) -> Option<TaxRates>
        ensures { result ≡ rates_of pis icms }
    {
        if pis <= 50000 && icms <= 50000 - pis {
            Some(TaxRates { pis, icms })
        } else {
            None
        }
    }

    pub fn pis(self) -> u32
        ensures { result ≡ self.pis }
    {
        self.pis
    }

    pub fn icms(self) -> u32
        ensures { result ≡ self.icms }
    {
        self.icms
    }
}
