// A store of rows: its meaning is a ledger.
ghost use Rattle.std.specs.Prelude.{◌≡◌, [], OnErr};
ghost use Rattle.ledger.specs.Ledger.{Ledger, Kept, find_row, next_row, put_in, takes, placed, size_of, with_rows};

use crate::row::Row;

// The row that found no place.
#[derive(Clone, Copy, PartialEq, Eq, Debug)]
pub struct Full<R> {
    pub row: R,
}

// How many rows a store holds, and how many it holds at most.
#[derive(Clone, Copy, PartialEq, Eq, Debug)]
pub struct Size {
    pub rows: usize,
    pub most: usize,
}

pub trait RowStore {
    type Row: Row;

    ghost ledger: { Self → Ledger Self.Row };

    // What the store keeps of its own; `Kept` adds that keys rise and that the rows are within the most.
    ghost kept: { Self → Type 0 };

    // The row with this key.
    fn find(&mut self, key: <Self::Row as Row>::Key) -> Option<Self::Row>
        requires { Kept Self.Row.Row.keys (ledger self.old) (kept self.old) }
        ensures answer { result ≡ find_row Self.Row.Row.keys key (ledger self.old).rows }
        ensures same { self.new ≡ self.old };

    // The first row, or the first above a key. By reference, since an impl whose row type is a parameter gets no clauses
    // for an Option of its key by value.
    fn next(&mut self, after: &Option<<Self::Row as Row>::Key>) -> Option<Self::Row>
        requires { Kept Self.Row.Row.keys (ledger self.old) (kept self.old) }
        ensures answer { result ≡ next_row Self.Row.Row.keys after.now (ledger self.old).rows }
        ensures same { self.new ≡ self.old };

    fn size(&mut self) -> Size
        requires { Kept Self.Row.Row.keys (ledger self.old) (kept self.old) }
        ensures answer { result ≡ size_of (ledger self.old) }
        ensures same { self.new ≡ self.old };

    // Refused, changing nothing, exactly if the key is new and the store holds its most.
    fn put(&mut self, row: Self::Row) -> Result<(), Full<Self::Row>>
        requires { Kept Self.Row.Row.keys (ledger self.old) (kept self.old) }
        ensures answer { result ≡ placed row (takes Self.Row.Row.keys row (ledger self.old)) }
        ensures after { ledger self.new ≡ put_in Self.Row.Row.keys Self.Row.Row.joined row (ledger self.old) }
        ensures same { OnErr result (self.new ≡ self.old) }
        ensures kept { Kept Self.Row.Row.keys (ledger self.new) (kept self.new) };

    // No rows, and the same most.
    fn clear(&mut self)
        requires { Kept Self.Row.Row.keys (ledger self.old) (kept self.old) }
        ensures after { ledger self.new ≡ with_rows (ledger self.old) [] }
        ensures kept { Kept Self.Row.Row.keys (ledger self.new) (kept self.new) };
}

// The refusal that `put` would give, and no change.
pub fn room<S: RowStore>(store: &mut S, row: S::Row) -> Result<(), Full<S::Row>>
    requires { Kept S.Row.Row.keys (S.RowStore.ledger store.old) (S.RowStore.kept store.old) }
    ensures answer { result ≡ placed row (takes S.Row.Row.keys row (S.RowStore.ledger store.old)) }
    ensures same { store.new ≡ store.old }
{
    let held = store.find(row.key());
    let size = store.size();
    if held.is_some() || size.rows < size.most {
        Ok(())
    } else {
        Err(Full { row })
    }
}
