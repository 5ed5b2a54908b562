// Why bytes are no declared file.
ghost use Rattle.std.specs.Prelude.{◌≡◌};
ghost use Rattle.declared.specs.Faults.{fault_number, fault_place};

// Where a refusal lies: in the length, in a field of a line, or in a whole line. Lines and fields count from 1.
#[derive(Clone, Copy, PartialEq, Eq, Debug)]
pub enum Place {
    Length(usize),
    Field { line: usize, field: u8 },
    Line { line: usize },
}

// The reader's faults.
#[derive(Clone, Copy, PartialEq, Eq, Debug)]
pub enum ReadFault {
    // No bytes, or no whole lines.
    Length(usize),
    // The first malformed field.
    Malformed { line: usize, field: u8 },
    // The first line whose key does not rise, or where a total is early, absent or unequal to the sums.
    Unsound { line: usize },
}

impl ReadFault {
    pub fn number(self) -> u8
        ensures { result ≡ fault_number self }
    {
        match self {
            ReadFault::Length(_) => 18,
            ReadFault::Malformed { .. } => 19,
            ReadFault::Unsound { .. } => 20,
        }
    }

    pub fn place(self) -> Place
        ensures { result ≡ fault_place self }
    {
        match self {
            ReadFault::Length(length) => Place::Length(length),
            ReadFault::Malformed { line, field } => Place::Field { line, field },
            ReadFault::Unsound { line } => Place::Line { line },
        }
    }
}
