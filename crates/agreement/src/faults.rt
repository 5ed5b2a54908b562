// Why bytes are no sound agreement.
ghost use Rattle.std.specs.Prelude.{◌≡◌};
ghost use Rattle.agreement.specs.Faults.{refusal};

use crate::parts::Part;

// What is wrong, and where. Rows are counted from 1.
#[derive(Clone, Copy, PartialEq, Eq, Debug)]
pub enum AgreementFault {
    // The length of the file.
    Length,
    // An entry of the contents.
    Contents { part: Part },
    // The first malformed row.
    Malformed { part: Part, row: usize },
    // The first row that is not above the one before it.
    NotRising { part: Part, row: usize },
}

impl AgreementFault {
    // The number of the refusal.
    pub fn number(self) -> u8
        ensures { result ≡ (refusal self).number }
    {
        match self {
            AgreementFault::Length | AgreementFault::Contents { .. } => 23,
            AgreementFault::Malformed { .. } => 24,
            AgreementFault::NotRising { .. } => 25,
        }
    }

    // The number of the part at fault, 0 for none.
    pub fn part(self) -> u8
        ensures { result ≡ (refusal self).part }
    {
        match self {
            AgreementFault::Length => 0,
            AgreementFault::Contents { part }
            | AgreementFault::Malformed { part, .. }
            | AgreementFault::NotRising { part, .. } => part.number(),
        }
    }

    // The row at fault, 0 for none.
    pub fn row(self) -> usize
        ensures { result ≡ (refusal self).row }
    {
        match self {
            AgreementFault::Length | AgreementFault::Contents { .. } => 0,
            AgreementFault::Malformed { row, .. } | AgreementFault::NotRising { row, .. } => row,
        }
    }
}
