// Changing an image, for every row type: the count and the one row written change, and nothing else.
ghost use Rattle.std.specs.Prelude.{◌≡◌, ◌+◌, ◌*◌, ◌<◌, ◌≤◌, ltb, [], length, if◌then◌else◌, OnErr, nat_lt};
ghost use Rattle.ledger.specs.Ledger.{placed, takes, put_in, with_rows};
ghost use Rattle.images.specs.Fields.{written};
ghost use Rattle.images.specs.Format.{whole_in, most_in, blank_bytes};
ghost use Rattle.imagestore.specs.Images.{image_ledger, KeptImage, joined_at, appended, put_bytes};

use crate::scan::rows_in;
use digits::write_decimal;
use images::format::{blank, most_rows, place_of, row_at};
use images::row::ImageRow;
use ledger::row::{Row, join_to};
use ledger::store::Full;

// The digits of the count.
const COUNT_WIDTH: usize = 7;

// The row's bytes at an index.
fn write_slot<R: ImageRow>(bytes: &mut [u8], i: usize, row: R)
    requires { i < whole_in R.ImageRow.WIDTH bytes.old }
    ensures { bytes.new ≡ written (7 + R.ImageRow.WIDTH * i) (R.ImageRow.bytes_of row) bytes.old }
{
    let width = R::WIDTH;
    let start = COUNT_WIDTH + width * i;
    row.write_row(&mut bytes[start..start + width]);
}

// Joins the row to the one at an index.
fn join_at<R: ImageRow>(bytes: &mut [u8], i: usize, row: R)
    requires { i < whole_in R.ImageRow.WIDTH bytes.old }
    ensures { bytes.new ≡ joined_at R.Row R.ImageRow.own bytes.old i row }
{
    let joined = join_to(row_at::<R>(bytes, i), row);
    write_slot(bytes, i, joined);
}

// One more row behind so many, and the count.
fn append<R: ImageRow>(bytes: &mut [u8], count: usize, row: R)
    requires { count < whole_in R.ImageRow.WIDTH bytes.old }
    ensures { bytes.new ≡ appended R.ImageRow.own bytes.old count row }
{
    write_slot(bytes, count, row);
    write_decimal(&mut bytes[0..COUNT_WIDTH], count as u64 + 1);
}

// Appends a row whose key is new, if there is room.
fn put_new<R: ImageRow>(bytes: &mut [u8], count: usize, row: R) -> Result<(), Full<R>>
    ensures answer { result ≡ placed row (nat_lt count (most_in R.ImageRow.WIDTH bytes.old)) }
    ensures bytes { bytes.new ≡ (if ltb count (most_in R.ImageRow.WIDTH bytes.old) then appended R.ImageRow.own bytes.old count row else bytes.old) }
{
    if count < most_rows::<R>(bytes) {
        append(bytes, count, row);
        Ok(())
    } else {
        Err(Full { row })
    }
}

// Joins the row to the one of its key, or appends it.
pub fn put_row<R: ImageRow>(bytes: &mut [u8], row: R) -> Result<(), Full<R>>
    requires { KeptImage R.Row R.ImageRow.own bytes.old }
    ensures answer { result ≡ placed row (takes R.Row.keys row (image_ledger R.Row R.ImageRow.own bytes.old)) }
    ensures bytes { bytes.new ≡ put_bytes R.Row R.ImageRow.own row bytes.old }
    ensures after { image_ledger R.Row R.ImageRow.own bytes.new ≡ put_in R.Row.keys R.Row.joined row (image_ledger R.Row R.ImageRow.own bytes.old) }
    ensures same { OnErr result (bytes.new ≡ bytes.old) }
    ensures kept { KeptImage R.Row R.ImageRow.own bytes.new }
{
    let count = rows_in::<R>(bytes);
    match place_of::<R>(bytes, count, row.key()) {
        Some(i) => {
            join_at(bytes, i, row);
            Ok(())
        }
        None => put_new(bytes, count, row),
    }
}

// No rows: the count alone is written.
pub fn clear_rows<R: ImageRow>(bytes: &mut [u8])
    requires { KeptImage R.Row R.ImageRow.own bytes.old }
    ensures bytes { bytes.new ≡ blank_bytes bytes.old }
    ensures after { image_ledger R.Row R.ImageRow.own bytes.new ≡ with_rows (image_ledger R.Row R.ImageRow.own bytes.old) [] }
    ensures kept { KeptImage R.Row R.ImageRow.own bytes.new }
{
    let _ = blank(bytes);
}
