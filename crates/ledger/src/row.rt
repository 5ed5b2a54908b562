// Rows: a key with its order, and the join of rows of one key.
ghost use Rattle.std.specs.Prelude.{◌≡◌, Some, Option};
ghost use Rattle.std.specs.declared.cmp.Ordering.{Ordering};
ghost use Rattle.ledger.specs.Keys.{KeyOps, OrderLaws, JoinLaws};
ghost use Rattle.ledger.specs.Ledger.{has_key, join_to, is_next, earlier};

use std::cmp::Ordering;

pub trait Row: Copy {
    type Key: Copy;

    // The key of a row, and how two keys stand.
    ghost keys: { KeyOps Self.Key Self };

    ghost joined: { Self → Self → Self };

    fn key(&self) -> Self::Key
        ensures { result ≡ keys.key_of self.now };

    fn compare(a: &Self::Key, b: &Self::Key) -> Ordering
        ensures { result ≡ keys.order a.now b.now };

    fn join(self, other: Self) -> Self
        ensures { result ≡ joined self other };

    // Keys are identical or one is below the other, and below is transitive.
    ghost ordered: { OrderLaws keys };

    // The join keeps the key, and is alike in either order and either bracketing.
    ghost joins: { JoinLaws keys joined };
}

// A row that a table keeps as plain numbers.
pub trait TableRow: Row {
    type Cell: Copy;

    // The row that a cell holds, if its numbers are in range.
    ghost row_of: { Self.Cell → Option Self };

    ghost cell_of: { Self → Self.Cell };

    // How the key in a cell stands to a key.
    ghost cell_order: { Self.Cell → Self.Key → Ordering };

    // Not TryFrom and From: the laws below speak of these two.
    fn from_cell(cell: Self::Cell) -> Option<Self>
        ensures { result ≡ row_of cell };

    fn to_cell(self) -> Self::Cell
        ensures { result ≡ cell_of self };

    // Compares plain numbers and makes no row, so that a search is quick.
    fn compare_cell(cell: &Self::Cell, key: &Self::Key) -> Ordering
        ensures { result ≡ cell_order cell.now key.now };

    ghost read: { (r : Self) → row_of (cell_of r) ≡ Some r };

    // A cell is ordered as the row that it holds.
    ghost ranked: { (c : Self.Cell) (k : Self.Key) (r : Self) → row_of c ≡ Some r → cell_order c k ≡ Self.Row.keys.order (Self.Row.keys.key_of r) k };
}

// Whether the row has this key.
pub fn has_key<R: Row>(row: Option<R>, key: R::Key) -> bool
    ensures { result ≡ has_key R.Row.keys key row }
{
    row.is_some_and(|row| R::compare(&row.key(), &key).is_eq())
}

// The second row joined to the first, or alone.
pub fn join_to<R: Row>(first: Option<R>, second: R) -> R
    ensures { result ≡ join_to R.Row.joined first second }
{
    match first {
        Some(first) => first.join(second),
        None => second,
    }
}

// Whether a row of this key may come next.
pub fn is_next<R: Row>(after: Option<R::Key>, key: R::Key) -> bool
    ensures { result ≡ is_next R.Row.keys after key }
{
    after.is_none_or(|from| R::compare(&from, &key).is_lt())
}

// Which of the two comes first; rows of one key are joined.
pub fn earlier<R: Row>(row: R, other: Option<R>) -> Option<R>
    ensures { result ≡ earlier R.Row.keys R.Row.joined row other }
{
    let Some(other) = other else {
        return Some(row);
    };
    match R::compare(&other.key(), &row.key()) {
        Ordering::Less => Some(other),
        Ordering::Equal => Some(other.join(row)),
        Ordering::Greater => Some(row),
    }
}
