// What stops a contest.
ghost use Rattle.std.specs.Prelude.{◌≡◌};
ghost use Rattle.verdicts.specs.Faults.{as_read, contest_number, contest_place};

use declared::faults::{Place, ReadFault};

// The reader's fault whole. Unlike: parties or reference month are not the statement's. Short: the buffer has less than
// one byte for each detail line.
#[derive(Clone, Copy, PartialEq, Eq, Debug)]
pub enum ContestFault {
    Read(ReadFault),
    Unlike,
    Short,
}

impl From<ReadFault> for ContestFault {
    ghost from_gives = { λ e r. r ≡ as_read e };

    fn from(e: ReadFault) -> ContestFault {
        ContestFault::Read(e)
    }
}

impl ContestFault {
    pub fn number(self) -> u8
        ensures { result ≡ contest_number self }
    {
        match self {
            ContestFault::Read(fault) => fault.number(),
            ContestFault::Unlike => 21,
            ContestFault::Short => 22,
        }
    }

    // Where the file is at fault, if reading it was refused.
    pub fn place(self) -> Option<Place>
        ensures { result ≡ contest_place self }
    {
        match self {
            ContestFault::Read(fault) => Some(fault.place()),
            ContestFault::Unlike => None,
            ContestFault::Short => None,
        }
    }
}
