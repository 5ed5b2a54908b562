// Ordered search and insertion in the first cells of a slice, for every row type.
ghost use Rattle.std.specs.Prelude.{◌≡◌, ◌+◌, ◌<◌, ◌≤◌, ◌∷◌, ◌++◌, length, take, drop, Some, MatchResult};
ghost use Rattle.std.specs.List.{slice_get};
ghost use Rattle.ledger.specs.Ledger.{find_row, next_row, place};
ghost use Rattle.stores.specs.Table.{Tabled, Put, rows_in};

use ledger::row::{Row, TableRow};
use ledger::store::Full;

// The row at `i`, one of the first `len`.
pub fn row_at<R: TableRow>(cells: &[R::Cell], len: usize, i: usize) -> R
    requires table { Tabled R.Row R.TableRow.own cells.now len }
    requires within { i < len }
    ensures { slice_get (rows_in R.TableRow.own cells.now len) i ≡ Some result }
{
    R::from_cell(cells[i]).unwrap()
}

// Where the key stands, or where it belongs.
pub fn search<R: TableRow>(cells: &[R::Cell], len: usize, key: R::Key) -> Result<usize, usize>
    requires { Tabled R.Row R.TableRow.own cells.now len }
    ensures found { result ≡ place R.Row.keys key (rows_in R.TableRow.own cells.now len) }
    ensures within { MatchResult result (λ i. i < len) (λ i. i ≤ len) }
{
    cells[..len].binary_search_by(|cell| R::compare_cell(cell, &key))
}

// One cell more at `at`; those from there on move up by one.
pub fn insert_cell<C: Copy>(cells: &mut [C], len: usize, at: usize, cell: C)
    requires place { at ≤ len }
    requires room { len < length cells.old }
    ensures { take (len + 1) cells.new ≡ take at (take len cells.old) ++ (cell ∷ drop at (take len cells.old)) }
{
    cells[len] = cell;
    cells[at..len + 1].rotate_right(1);
}

// The row with this key.
pub fn find_row<R: TableRow>(cells: &mut [R::Cell], len: usize, key: R::Key) -> Option<R>
    requires { Tabled R.Row R.TableRow.own cells.old len }
    ensures found { result ≡ find_row R.Row.keys key (rows_in R.TableRow.own cells.old len) }
    ensures same { cells.new ≡ cells.old }
{
    let at = search::<R>(cells, len, key).ok()?;
    Some(row_at::<R>(cells, len, at))
}

// The index of the first row, or of the first above a key.
fn next_at<R: TableRow>(cells: &[R::Cell], len: usize, after: Option<R::Key>) -> usize
    requires { Tabled R.Row R.TableRow.own cells.now len }
    ensures { slice_get (rows_in R.TableRow.own cells.now len) result ≡ next_row R.Row.keys after (rows_in R.TableRow.own cells.now len) }
{
    let Some(key) = after else {
        return 0;
    };
    match search::<R>(cells, len, key) {
        Ok(at) => at + 1,
        Err(at) => at,
    }
}

// The first row, or the first above a key.
pub fn next_row<R: TableRow>(cells: &mut [R::Cell], len: usize, after: Option<R::Key>) -> Option<R>
    requires { Tabled R.Row R.TableRow.own cells.old len }
    ensures found { result ≡ next_row R.Row.keys after (rows_in R.TableRow.own cells.old len) }
    ensures same { cells.new ≡ cells.old }
{
    let at = next_at::<R>(cells, len, after);
    if at < len {
        Some(row_at::<R>(cells, len, at))
    } else {
        None
    }
}

// Joins the row to the one of its key or inserts it, and answers the number of rows.
pub fn put_row<R: TableRow>(cells: &mut [R::Cell], len: usize, row: R) -> Result<usize, Full<R>>
    requires { Tabled R.Row R.TableRow.own cells.old len }
    ensures { Put R.Row R.TableRow.own row cells.old len cells.new result }
{
    match search::<R>(cells, len, row.key()) {
        Ok(at) => {
            let held = row_at::<R>(cells, len, at);
            cells[at] = held.join(row).to_cell();
            Ok(len)
        }
        Err(at) => {
            if len == cells.len() {
                return Err(Full { row });
            }
            insert_cell(cells, len, at, row.to_cell());
            Ok(len + 1)
        }
    }
}
