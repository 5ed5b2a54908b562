// What stops a record in the reader.
ghost use Rattle.std.specs.Prelude.{◌≡◌};
ghost use Rattle.cdr.specs.Faults.{record_number, record_place, malformed_at, charge};

use crate::fields::Field;

// Where in the record a refusal lies: in its length, in a field, or at the first column of a field that is malformed.
// What is malformed is told by the numbers that are printed.
#[derive(Clone, Copy, PartialEq, Eq, Debug)]
pub enum Place {
    Length(usize),
    Field(Field),
    Column { field: u8, column: u8 },
}

// The reader's faults.
#[derive(Clone, Copy, PartialEq, Eq, Debug)]
pub enum RecordFault {
    Length(usize),
    Malformed { field: u8, column: u8 },
    Category,
    Selection,
    Sliced,
    Cause,
}

// A fault and the sequential of the record that met it. It is 0 where the record has none: the number that is printed
// and that a tally's least sequential takes for none, by rule.
#[derive(Clone, Copy, PartialEq, Eq, Debug)]
pub struct Charged<F> {
    pub fault: F,
    pub sequential: u64,
}

// A malformed field by its number and first column.
pub fn malformed(field: u8, column: u8, sequential: u64) -> Charged<RecordFault>
    ensures { result ≡ malformed_at field column sequential }
{
    Charged {
        fault: RecordFault::Malformed { field, column },
        sequential,
    }
}

// The same result, a fault charged to the record of this sequential.
pub fn charge_to<T, F>(res: Result<T, F>, sequential: u64) -> Result<T, Charged<F>>
    ensures { result ≡ charge sequential res }
{
    res.map_err(|fault| Charged { fault, sequential })
}

impl RecordFault {
    pub fn number(self) -> u8
        ensures { result ≡ record_number self }
    {
        match self {
            RecordFault::Length(_) => 2,
            RecordFault::Malformed { .. } => 3,
            RecordFault::Category => 4,
            RecordFault::Selection => 5,
            RecordFault::Sliced => 6,
            RecordFault::Cause => 7,
        }
    }

    pub fn place(self) -> Place
        ensures { result ≡ record_place self }
    {
        match self {
            RecordFault::Length(length) => Place::Length(length),
            RecordFault::Malformed { field, column } => Place::Column { field, column },
            RecordFault::Category => Place::Field(Field::Category),
            RecordFault::Selection => Place::Field(Field::Selection),
            RecordFault::Sliced | RecordFault::Cause => Place::Field(Field::Cause),
        }
    }
}
