// Opening an agreement file.
ghost use Rattle.std.specs.Prelude.{◌≡◌};
ghost use Rattle.agreement.specs.Agreement.{opened};

use crate::bodies::judge;
use crate::contents::read_contents;
use crate::faults::AgreementFault;
use values::terms::Terms;

// The terms of a sound agreement, or else the refusal of lowest number.
pub fn open(bytes: &[u8]) -> Result<Terms, AgreementFault>
    ensures { result ≡ opened bytes.now }
{
    judge(&read_contents(bytes)?)
}
