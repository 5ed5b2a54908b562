// Why a list takes no further item.
ghost use Rattle.std.specs.Prelude.{◌≡◌};
ghost use Rattle.books.specs.Faults.{list_number};

// An item that is listed already is told before a full list.
#[derive(Clone, Copy, PartialEq, Eq, Debug)]
pub enum ListFault {
    // An item of the same key is listed.
    Listed,
    // The list holds its most.
    Full,
}

impl ListFault {
    pub fn number(self) -> u8
        ensures { result ≡ list_number self }
    {
        match self {
            ListFault::Listed => 27,
            ListFault::Full => 27,
        }
    }
}
