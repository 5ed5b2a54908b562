// Fields of fixed width, written one after the other.
ghost use Rattle.std.specs.Prelude.{◌≡◌, ◌+◌, ◌≤◌, length, sum_by};
ghost use Rattle.detraf.specs.Fields.{field_width, field_bytes, fields_bytes, written};

use digits::{write_be, write_decimal};

// A field's width and what it shows.
#[derive(Clone, Copy, PartialEq, Eq, Debug)]
pub enum Field {
    // A decimal number with leading zeros.
    Number(usize, u64),
    // A text by the number of its bytes, or blanks.
    Text(usize, Option<u128>),
    // 0A hex, the end of a line.
    Newline,
}

impl Field {
    pub fn width(self) -> usize
        ensures { result ≡ field_width self }
    {
        match self {
            Field::Number(width, _) => width,
            Field::Text(width, _) => width,
            Field::Newline => 1,
        }
    }

    // Fills a buffer that is as wide as the field.
    fn fill(self, out: &mut [u8])
        requires { length out.old ≡ field_width self }
        ensures { out.new ≡ field_bytes self }
    {
        match self {
            Field::Number(_, value) => write_decimal(out, value),
            Field::Text(_, Some(value)) => write_be(out, value),
            Field::Text(_, None) => out.fill(b' '),
            Field::Newline => out.fill(b'\n'),
        }
    }
}

// The field, from a place on.
fn write_field(out: &mut [u8], at: usize, field: Field)
    requires { at + field_width field ≤ length out.old }
    ensures { out.new ≡ written at (field_bytes field) out.old }
{
    field.fill(&mut out[at..at + field.width()]);
}

// The fields one after the other, from a place on. The column is kept by hand, since after a loop that cuts a rest with
// `split_at_mut` no fact ties what the buffer holds to what was written.
pub fn write_fields(out: &mut [u8], at: usize, fields: &[Field])
    requires { at + sum_by field_width fields.now ≤ length out.old }
    ensures { out.new ≡ written at (fields_bytes fields.now) out.old }
{
    let mut column = at;
    for field in fields {
        write_field(out, column, *field);
        column += field.width();
    }
}
