// The form that each field of a line must have.
ghost use Rattle.std.specs.Prelude.{◌≡◌, true};
ghost use Rattle.declared.specs.Forms.{all_are, field, holds, is_sound, is_within, all_within, first_malformed, head_forms, detail_forms, total_forms, body_forms, is_total, line_fault};

use crate::lines::LineBytes;
use digits::read_decimal;
use values::calendar::Month;
use values::decimal::Decimal;
use values::labels::{Descriptor, Point};
use values::terms::Carrier;

// What a field must be.
#[derive(Clone, Copy, PartialEq, Eq, Debug)]
pub enum Form {
    // A carrier's code, 001 to 999.
    Code,
    Month,
    Point,
    Descriptor,
    Digits,
    // This byte throughout.
    Filled(u8),
    // As on line 1.
    Creditor,
    Debtor,
    Reference,
}

// A field by its number and its columns, from 1.
#[derive(Clone, Copy, PartialEq, Eq, Debug)]
pub struct FieldForm {
    pub number: u8,
    pub first: usize,
    pub last: usize,
    pub form: Form,
}

// Whether every byte is this one.
fn is_filled(bytes: &[u8], byte: u8) -> bool
    ensures { result ≡ all_are byte bytes.now }
{
    bytes.iter().all(|b| *b == byte)
}

impl Form {
    // Whether a field has this form, in a file with this first line.
    fn holds(self, heading: &LineBytes, field: &[u8]) -> bool
        ensures { result ≡ holds self heading.now field.now }
    {
        match self {
            Form::Code => Carrier::read(field).is_some(),
            Form::Month => Month::read(field).is_some(),
            Form::Point => Point::read(field).is_some(),
            Form::Descriptor => Descriptor::read(field).is_some(),
            Form::Digits => read_decimal(field, field.len()).is_some(),
            Form::Filled(byte) => is_filled(field, byte),
            Form::Creditor => field == &heading[0..3],
            Form::Debtor => field == &heading[3..6],
            Form::Reference => field == &heading[6..12],
        }
    }
}

impl FieldForm {
    fn new(number: u8, first: usize, last: usize, form: Form) -> FieldForm
        ensures { result ≡ field number first last form }
    {
        FieldForm {
            number,
            first,
            last,
            form,
        }
    }

    // Whether a line has its form in these columns.
    fn is_sound(self, heading: &LineBytes, line: &LineBytes) -> bool
        requires { is_within self ≡ true }
        ensures { result ≡ is_sound heading.now line.now self }
    {
        let start = self.first - 1;
        let end = self.last;
        self.form.holds(heading, &line[start..end])
    }
}

// The number of the first field that has not its form.
fn first_malformed(forms: &[FieldForm], heading: &LineBytes, line: &LineBytes) -> Option<u8>
    requires { all_within forms.now ≡ true }
    ensures { result ≡ first_malformed heading.now line.now forms.now }
{
    let malformed = forms.iter().find(|field| !field.is_sound(heading, line));
    malformed.map(|field| field.number)
}

// The parties and the reference month.
fn head_forms(is_first: bool) -> [FieldForm; 3]
    ensures { result ≡ head_forms is_first }
{
    if is_first {
        [
            FieldForm::new(1, 1, 3, Form::Code),
            FieldForm::new(2, 4, 6, Form::Code),
            FieldForm::new(3, 7, 12, Form::Month),
        ]
    } else {
        [
            FieldForm::new(1, 1, 3, Form::Creditor),
            FieldForm::new(2, 4, 6, Form::Debtor),
            FieldForm::new(3, 7, 12, Form::Reference),
        ]
    }
}

// The other fields of a detail line.
fn detail_forms() -> [FieldForm; 13]
    ensures { result ≡ detail_forms }
{
    [
        FieldForm::new(4, 13, 18, Form::Month),
        FieldForm::new(5, 19, 28, Form::Point),
        FieldForm::new(6, 29, 30, Form::Filled(b'0')),
        FieldForm::new(7, 31, 35, Form::Descriptor),
        FieldForm::new(8, 36, 36, Form::Filled(b' ')),
        FieldForm::new(9, 37, 48, Form::Digits),
        FieldForm::new(10, 49, 61, Form::Digits),
        FieldForm::new(11, 62, 68, Form::Digits),
        FieldForm::new(12, 69, 83, Form::Digits),
        FieldForm::new(13, 84, 98, Form::Digits),
        FieldForm::new(14, 99, 113, Form::Digits),
        FieldForm::new(15, 114, 128, Form::Digits),
        FieldForm::new(16, 129, 129, Form::Filled(b'\n')),
    ]
}

// The other fields of the total line.
fn total_forms() -> [FieldForm; 12]
    ensures { result ≡ total_forms }
{
    [
        FieldForm::new(4, 13, 18, Form::Reference),
        FieldForm::new(5, 19, 28, Form::Filled(b' ')),
        FieldForm::new(7, 31, 35, Form::Filled(b' ')),
        FieldForm::new(8, 36, 36, Form::Filled(b' ')),
        FieldForm::new(9, 37, 48, Form::Digits),
        FieldForm::new(10, 49, 61, Form::Digits),
        FieldForm::new(11, 62, 68, Form::Filled(b'0')),
        FieldForm::new(12, 69, 83, Form::Digits),
        FieldForm::new(13, 84, 98, Form::Digits),
        FieldForm::new(14, 99, 113, Form::Digits),
        FieldForm::new(15, 114, 128, Form::Digits),
        FieldForm::new(16, 129, 129, Form::Filled(b'\n')),
    ]
}

// Whether the type of a line is 01.
pub fn is_total(line: &LineBytes) -> bool
    ensures { result ≡ is_total line.now }
{
    line[28] == b'0' && line[29] == b'1'
}

// The number of the first malformed field of a line after the first three.
fn body_fault(heading: &LineBytes, line: &LineBytes) -> Option<u8>
    ensures { result ≡ first_malformed heading.now line.now (body_forms line.now) }
{
    if is_total(line) {
        first_malformed(&total_forms(), heading, line)
    } else {
        first_malformed(&detail_forms(), heading, line)
    }
}

// The number of the first malformed field of a line.
pub fn line_fault(is_first: bool, heading: &LineBytes, line: &LineBytes) -> Option<u8>
    ensures { result ≡ line_fault is_first heading.now line.now }
{
    first_malformed(&head_forms(is_first), heading, line).or_else(|| body_fault(heading, line))
}
