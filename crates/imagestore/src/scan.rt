// Looking through the rows of an image, for every row type.
ghost use Rattle.std.specs.Prelude.{◌≡◌, ◌≤◌};
ghost use Rattle.ledger.specs.Ledger.{find_row, next_row, size_of};
ghost use Rattle.images.specs.Arrivals.{arrived};
ghost use Rattle.images.specs.Format.{most_in, row_at};
ghost use Rattle.imagestore.specs.Images.{row_count, image_ledger, KeptImage, next_with};

use images::format::{count_rows, most_rows, place_of, row_at};
use images::row::ImageRow;
use ledger::row::{Row, earlier, is_next};
use ledger::store::Size;

// How many rows the count states, and none where it is bad.
pub fn rows_in<R: ImageRow>(bytes: &[u8]) -> usize
    ensures value { result ≡ row_count R.ImageRow.WIDTH bytes.now }
    ensures within { result ≤ most_in R.ImageRow.WIDTH bytes.now }
{
    count_rows::<R>(bytes).unwrap_or(0)
}

// How many rows, and the most.
pub fn size_of<R: ImageRow>(bytes: &mut [u8]) -> Size
    requires { KeptImage R.Row R.ImageRow.own bytes.old }
    ensures answer { result ≡ size_of (image_ledger R.Row R.ImageRow.own bytes.old) }
    ensures same { bytes.new ≡ bytes.old }
{
    Size {
        rows: rows_in::<R>(bytes),
        most: most_rows::<R>(bytes),
    }
}

// The row with this key.
pub fn find_row<R: ImageRow>(bytes: &mut [u8], key: R::Key) -> Option<R>
    requires { KeptImage R.Row R.ImageRow.own bytes.old }
    ensures answer { result ≡ find_row R.Row.keys key (image_ledger R.Row R.ImageRow.own bytes.old).rows }
    ensures same { bytes.new ≡ bytes.old }
{
    let count = rows_in::<R>(bytes);
    match place_of::<R>(bytes, count, key) {
        Some(at) => row_at::<R>(bytes, at),
        None => None,
    }
}

// The next row once one more row is looked at.
fn next_with<R: ImageRow>(after: &Option<R::Key>, best: Option<R>, row: Option<R>) -> Option<R>
    ensures { result ≡ next_with R.Row.keys R.Row.joined after.now best row }
{
    let Some(row) = row else {
        return best;
    };
    if is_next::<R>(*after, row.key()) {
        earlier(row, best)
    } else {
        best
    }
}

// The next of so many rows.
fn next_of<R: ImageRow>(bytes: &[u8], count: usize, after: &Option<R::Key>) -> Option<R>
    ensures { result ≡ next_row R.Row.keys after.now (arrived R.Row.keys R.Row.joined (row_at R.ImageRow.own bytes.now) count) }
{
    (0..count).fold(
        None,
        |best, i| next_with::<R>(after, best, row_at::<R>(bytes, i)),
    )
}

// The first row, or the first above a key.
pub fn next_row<R: ImageRow>(bytes: &mut [u8], after: &Option<R::Key>) -> Option<R>
    requires { KeptImage R.Row R.ImageRow.own bytes.old }
    ensures answer { result ≡ next_row R.Row.keys after.now (image_ledger R.Row R.ImageRow.own bytes.old).rows }
    ensures same { bytes.new ≡ bytes.old }
{
    let count = rows_in::<R>(bytes);
    next_of::<R>(bytes, count, after)
}
