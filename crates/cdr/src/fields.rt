// The fields of a record that a refusal names.
ghost use Rattle.std.specs.Prelude.{◌≡◌};
ghost use Rattle.cdr.specs.Fields.{field_number, field_column};

#[derive(Clone, Copy, PartialEq, Eq, Debug)]
pub enum Field {
    Sequential,
    Date,
    Time,
    Duration,
    Point,
    Descriptor,
    Category,
    Selection,
    Cause,
}

impl Field {
    // Its number in the record's layout.
    pub fn number(self) -> u8
        ensures { result ≡ field_number self }
    {
        match self {
            Field::Sequential => 1,
            Field::Date => 3,
            Field::Time => 4,
            Field::Duration => 6,
            Field::Point => 7,
            Field::Descriptor => 8,
            Field::Category => 10,
            Field::Selection => 11,
            Field::Cause => 12,
        }
    }

    // Its first column, from 1.
    pub fn column(self) -> u8
        ensures { result ≡ field_column self }
    {
        match self {
            Field::Sequential => 1,
            Field::Date => 32,
            Field::Time => 40,
            Field::Duration => 66,
            Field::Point => 73,
            Field::Descriptor => 83,
            Field::Category => 101,
            Field::Selection => 103,
            Field::Cause => 105,
        }
    }
}
