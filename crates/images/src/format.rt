// The check of an image, and an image made empty.
ghost use Rattle.std.specs.Prelude.{◌≡◌, ◌+◌, ◌*◌, ◌<◌, ◌≤◌, length, IfSome};
ghost use Rattle.images.specs.Arrivals.{is_fault, arrived, place_of, first_fault};
ghost use Rattle.images.specs.Format.{slot_at, whole_in, most_in, count_in, row_at, checked, blanked, blank_bytes};

use crate::faults::ImageFault;
use crate::row::ImageRow;
use digits::{read_decimal, write_decimal};
use ledger::row::{Row, has_key};

// The digits of the count.
const COUNT_WIDTH: usize = 7;

// The largest count.
const MOST_ROWS: usize = 9_999_999;

// The whole rows that fit after the count.
fn whole_rows<R: ImageRow>(bytes: &[u8]) -> usize
    ensures { result ≡ whole_in R.ImageRow.WIDTH bytes.now }
{
    bytes.len().saturating_sub(COUNT_WIDTH) / R::WIDTH
}

// The most rows that an image of so many bytes holds.
pub fn most_rows<R: ImageRow>(bytes: &[u8]) -> usize
    ensures { result ≡ most_in R.ImageRow.WIDTH bytes.now }
{
    whole_rows::<R>(bytes).min(MOST_ROWS)
}

// The count, if it is sound.
pub fn count_rows<R: ImageRow>(bytes: &[u8]) -> Option<usize>
    ensures { result ≡ count_in R.ImageRow.WIDTH bytes.now }
{
    if bytes.len() < COUNT_WIDTH {
        return None;
    }
    let count = read_decimal(&bytes[0..COUNT_WIDTH], COUNT_WIDTH)? as usize;
    Some(count).filter(|count| *count <= most_rows::<R>(bytes))
}

// The bytes of the row at an index, from 0.
fn slot(bytes: &[u8], width: usize, i: usize) -> &[u8]
    requires { 7 + width * i + width ≤ length bytes.now }
    ensures { result.now ≡ slot_at width i bytes.now }
{
    let start = COUNT_WIDTH + width * i;
    &bytes[start..start + width]
}

// The row at an index, if there is a well-formed one.
pub fn row_at<R: ImageRow>(bytes: &[u8], i: usize) -> Option<R>
    ensures { result ≡ row_at R.ImageRow.own bytes.now i }
{
    if i >= whole_rows::<R>(bytes) {
        return None;
    }
    R::read_row(slot(bytes, R::WIDTH, i))
}

// The index of the first of so many rows that has this key.
pub fn place_of<R: ImageRow>(bytes: &[u8], count: usize, key: R::Key) -> Option<usize>
    ensures value { result ≡ place_of R.Row.keys key (row_at R.ImageRow.own bytes.now) count }
    ensures within { IfSome result (λ i. i < count) }
{
    (0..count).find(|i| has_key(row_at::<R>(bytes, *i), key))
}

// Whether the row at an index is malformed or repeats the key of an earlier row.
fn is_fault<R: ImageRow>(bytes: &[u8], i: usize) -> bool
    ensures { result ≡ is_fault R.Row.keys (row_at R.ImageRow.own bytes.now i) (arrived R.Row.keys R.Row.joined (row_at R.ImageRow.own bytes.now) i) }
{
    match row_at::<R>(bytes, i) {
        Some(row) => place_of::<R>(bytes, i, row.key()).is_some(),
        None => true,
    }
}

// The index of the first of so many rows that is at fault.
fn first_fault<R: ImageRow>(bytes: &[u8], count: usize) -> Option<usize>
    ensures value { result ≡ first_fault R.Row.keys R.Row.joined (row_at R.ImageRow.own bytes.now) count }
    ensures within { IfSome result (λ i. i < count) }
{
    (0..count).find(|i| is_fault::<R>(bytes, *i))
}

// Refuses bytes that are no image of rows of this type, by the first row at fault.
pub fn check<R: ImageRow>(bytes: &[u8]) -> Result<(), ImageFault>
    ensures { result ≡ checked R.Row R.ImageRow.own bytes.now }
{
    let count = count_rows::<R>(bytes).ok_or(ImageFault::Count)?;
    match first_fault::<R>(bytes, count) {
        Some(i) => Err(ImageFault::Row(i + 1)),
        None => Ok(()),
    }
}

// Makes an empty image by its count alone. Bytes that are too few stay as they were.
pub fn blank(bytes: &mut [u8]) -> Result<(), ImageFault>
    ensures answer { result ≡ blanked bytes.old }
    ensures after { bytes.new ≡ blank_bytes bytes.old }
{
    if bytes.len() < COUNT_WIDTH {
        return Err(ImageFault::Count);
    }
    write_decimal(&mut bytes[0..COUNT_WIDTH], 0);
    Ok(())
}
