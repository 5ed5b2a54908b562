// The agreement in the current folder.
ghost use Rattle.std.specs.Prelude.{◌≡◌, IfOk, Ok};
ghost use Rattle.agreement.specs.Agreement.{opened};

use agreement::faults::AgreementFault;
use anyhow::anyhow;
use std::fs;
use values::terms::Terms;

// Why an agreement is refused, in words.
fn reason(fault: AgreementFault) -> &'static str {
    match fault {
        AgreementFault::Length | AgreementFault::Contents { .. } => "contents or length",
        AgreementFault::Malformed { .. } => "malformed row",
        AgreementFault::NotRising { .. } => "row not above the one before it",
    }
}

// The bytes of the file `agreement`.
pub fn read_agreement(rt: &HostRuntime) -> anyhow::Result<Vec<u8>> {
    fs::read(rt, "agreement").map_err(|why| anyhow!(
        "agreement refused: the file cannot be read: {why}"
    ))
}

// The terms of an agreement, or why it is refused, in words.
pub fn read_terms(rt: &HostRuntime, bytes: &[u8]) -> anyhow::Result<Terms>
    ensures { IfOk result (λ terms. opened bytes.now ≡ Ok terms) }
{
    agreement::reader::open(bytes).map_err(|fault| {
        let number = fault.number();
        let part = fault.part();
        let row = fault.row();
        let why = reason(fault);
        anyhow!("agreement refused: {number}, part {part}, row {row} ({why})")
    })
}
