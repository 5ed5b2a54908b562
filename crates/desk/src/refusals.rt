// Why a DETRAF file is refused, in words, with the place and the bytes at fault.
use declared::faults::{Place, ReadFault};
use detraf::line::LINE_WIDTH;
use std::fmt;

// The name and the columns of each field, from 1.
const FIELDS: [(&str, usize, usize); 16] = [
    ("creditor", 1, 3),
    ("debtor", 4, 6),
    ("reference month", 7, 12),
    ("traffic month", 13, 18),
    ("point", 19, 28),
    ("type", 29, 30),
    ("descriptor", 31, 35),
    ("band", 36, 36),
    ("calls", 37, 48),
    ("tenths", 49, 61),
    ("tariff", 62, 68),
    ("net", 69, 83),
    ("PIS/COFINS", 84, 98),
    ("ICMS", 99, 113),
    ("gross", 114, 128),
    ("end of the line", 129, 129),
];

// What the number says.
fn cause(fault: ReadFault) -> &'static str {
    match fault {
        ReadFault::Length(_) => "the file is empty, or its length is no multiple of 129",
        ReadFault::Malformed { .. } => "malformed field",
        ReadFault::Unsound { .. } =>
            "the key is not above the one before it, or the total is early, absent or unequal to the sums",
    }
}

// Bytes as text, with a dot for each that is not printable.
#[derive(Clone, Copy)]
struct Text<'a>(&'a [u8]);

impl fmt::Display for Text<'_> {
    fn fmt<W: fmt::Write>(&self, f: &mut fmt::Formatter<W>) -> fmt::Result {
        for b in self.0 {
            f.write_char(if matches!(*b, b' '..=b'~') {
                *b as char
            } else {
                '.'
            })?;
        }
        Ok(())
    }
}

// Bytes in hexadecimal digits, with a blank before each.
#[derive(Clone, Copy)]
struct Digits<'a>(&'a [u8]);

impl fmt::Display for Digits<'_> {
    fn fmt<W: fmt::Write>(&self, f: &mut fmt::Formatter<W>) -> fmt::Result {
        for b in self.0 {
            write!(f, " {b:02x}")?;
        }
        Ok(())
    }
}

// Why a file of these bytes is refused.
#[derive(Clone, Copy)]
pub struct Refusal<'a> {
    pub bytes: &'a [u8],
    pub fault: ReadFault,
}

impl Refusal<'_> {
    // The bytes of these columns of a line; none where the file has no such line.
    fn columns(&self, line: usize, first: usize, last: usize) -> &[u8] {
        self.bytes
            .chunks(LINE_WIDTH)
            .nth(line.saturating_sub(1))
            .and_then(|row| row.get(first.saturating_sub(1)..last))
            .unwrap_or_default()
    }
}

impl fmt::Display for Refusal<'_> {
    fn fmt<W: fmt::Write>(&self, f: &mut fmt::Formatter<W>) -> fmt::Result {
        let number = self.fault.number();
        let why = cause(self.fault);
        let (line, field) = match self.fault.place() {
            Place::Length(length) => {
                return write!(f, "refused: {number}, length {length} ({why})");
            }
            Place::Field { line, field } => (line, field),
            // printed as field 0
            Place::Line { line } => (line, 0),
        };
        // field 0 wraps past the end of the table
        let known = FIELDS.get(usize::from(field).wrapping_sub(1));
        let (first, last) = known.map_or((1, 128), |(_, first, last)| (*first, *last));
        write!(f, "refused: {number}, line {line}, field {field} ({why}")?;
        if let Some((name, ..)) = known {
            write!(f, ": {name}, columns {first} to {last}")?;
        }
        let shown = self.columns(line, first, last);
        write!(f, "): '{}', hexadecimal{}", Text(shown), Digits(shown))
    }
}
