// What stops a join, which changes neither side.
ghost use Rattle.std.specs.Prelude.{◌≡◌};
ghost use Rattle.statement.specs.Joining.{join_number, join_rows};

// Unlike: terms or reference months differ. TooMany: together they took more records than one statement takes. Lines,
// Days: the receiver has too little room for the rows of both.
#[derive(Clone, Copy, PartialEq, Eq, Debug)]
pub enum JoinFault {
    Unlike,
    TooMany,
    Lines,
    Days,
}

impl JoinFault {
    pub fn number(self) -> u8
        ensures { result ≡ join_number self }
    {
        match self {
            JoinFault::Unlike => 14,
            JoinFault::TooMany => 15,
            JoinFault::Lines | JoinFault::Days => 16,
        }
    }

    // Which rows are too many: 1 for lines, 2 for days.
    pub fn rows(self) -> Option<u8>
        ensures { result ≡ join_rows self }
    {
        match self {
            JoinFault::Unlike | JoinFault::TooMany => None,
            JoinFault::Lines => Some(1),
            JoinFault::Days => Some(2),
        }
    }
}
