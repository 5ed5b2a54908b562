// A store in a slice that the caller lends: its first cells hold the rows in key order.
ghost use Rattle.std.specs.Prelude.{◌≡◌, [], length};
ghost use Rattle.ledger.specs.Ledger.{Ledger, Kept};
ghost use Rattle.stores.specs.Table.{Tabled, ledger_in};

use crate::search::{find_row, next_row, put_row};
use ledger::row::{Row, TableRow};
use ledger::store::{Full, RowStore, Size};

// The cells are the caller's, and their number stands beside them: what the first of them hold is the law of the store
// interface, true once made and kept by each call, and not an invariant of this type.
#[derive(Drop)]
pub struct TableStore<'a, R: TableRow> {
    cells: &'a mut [R::Cell],
    len: usize,
}

impl<'a, R: TableRow> TableStore<'a, R> {
    // An empty store that holds at most one row for each cell.
    pub fn new(cells: &'a mut [R::Cell]) -> TableStore<'a, R>
        ensures empty { ledger_in R.TableRow.own result.cells.now result.len ≡ record { rows = []; most = length cells.old } }
        ensures kept { Kept R.Row.keys (ledger_in R.TableRow.own result.cells.now result.len) (Tabled R.Row R.TableRow.own result.cells.now result.len) }
    {
        TableStore { cells, len: 0 }
    }
}

impl<'a, R: TableRow> RowStore for TableStore<'a, R> {
    type Row = R;

    ghost ledger = { λ s. ledger_in R.TableRow.own s.cells.now s.len };

    ghost kept = { λ s. Tabled R.Row R.TableRow.own s.cells.now s.len };

    fn find(&mut self, key: R::Key) -> Option<R> {
        let len = self.len;
        find_row::<R>(self.cells, len, key)
    }

    fn next(&mut self, after: &Option<R::Key>) -> Option<R> {
        let len = self.len;
        next_row::<R>(self.cells, len, *after)
    }

    fn size(&mut self) -> Size {
        Size {
            rows: self.len,
            most: self.cells.len(),
        }
    }

    fn put(&mut self, row: R) -> Result<(), Full<R>> {
        let len = self.len;
        self.len = put_row::<R>(self.cells, len, row)?;
        Ok(())
    }

    fn clear(&mut self) {
        self.len = 0;
    }
}
