// The reader of call records.
#![tactic(auto)]

pub mod call;
pub mod faults;
pub mod fields;

ghost use Rattle.std.specs.Prelude.{◌≡◌};
ghost use Rattle.cdr.specs.Reader.{sequential_in, unsound, read_fields, judged, read_record};

use call::CallRecord;
use digits::read_decimal;
use faults::{Charged, RecordFault, charge_to, malformed};
use fields::Field;
use values::calendar::{Day, Duration, TimeOfDay};
use values::decimal::Decimal;
use values::labels::{Descriptor, Point};

// The bytes of a record.
pub const RECORD: usize = 129;

// Ten digits that are not all zero.
fn read_sequential(bytes: &[u8]) -> Option<u64>
    ensures { result ≡ sequential_in bytes.now }
{
    read_decimal(bytes, 10).filter(|n| *n > 0)
}

// A malformed field, charged to a sequential.
fn unsound(field: Field, sequential: u64) -> Charged<RecordFault>
    ensures { result ≡ unsound field sequential }
{
    malformed(field.number(), field.column(), sequential)
}

// The fields of a record, or its first malformed field.
fn read_fields(bytes: &[u8; RECORD]) -> Result<CallRecord, Charged<RecordFault>>
    ensures { result ≡ read_fields bytes.now }
{
    let sequential = read_sequential(&bytes[0..10]).ok_or(unsound(Field::Sequential, 0))?;
    let unsound = |field| unsound(field, sequential);
    let day = Day::read(&bytes[31..39]).ok_or(unsound(Field::Date))?;
    let time = TimeOfDay::read(&bytes[39..45]).ok_or(unsound(Field::Time))?;
    let duration = Duration::read(&bytes[65..72]).ok_or(unsound(Field::Duration))?;
    let point = Point::read(&bytes[72..82]).ok_or(unsound(Field::Point))?;
    let descriptor = Descriptor::read(&bytes[82..87]).ok_or(unsound(Field::Descriptor))?;
    read_decimal(&bytes[100..102], 2).ok_or(unsound(Field::Category))?;
    Ok(CallRecord {
        sequential,
        day,
        time,
        duration,
        point,
        descriptor,
    })
}

// Why a record with sound fields is refused, if it is: a test call, one not answered, one cut by the exchange, or
// one that ended in another way. Category, end of selection and exit cause stand side by side.
fn judge(bytes: &[u8; RECORD]) -> Result<(), RecordFault>
    ensures { result ≡ judged bytes.now }
{
    match &bytes[100..105] {
        [b'0', b'3', ..] => Err(RecordFault::Category),
        [_, _, b'0', b'1', b'0' | b'4'] => Ok(()),
        [_, _, b'0', b'1', b'1' | b'5'] => Err(RecordFault::Sliced),
        [_, _, b'0', b'1', _] => Err(RecordFault::Cause),
        _ => Err(RecordFault::Selection),
    }
}

// The call of a record, or why it is refused.
#[tactic(auto, unfolding(crate::specs::Reader::read_record))]
pub fn read(bytes: &[u8]) -> Result<CallRecord, Charged<RecordFault>>
    ensures { result ≡ read_record bytes.now }
{
    let Ok(record) = <&[u8; RECORD]>::try_from(bytes) else {
        return Err(Charged {
            fault: RecordFault::Length(bytes.len()),
            sequential: 0,
        });
    };
    let call = read_fields(record)?;
    charge_to(judge(record), call.sequential)?;
    Ok(call)
}
