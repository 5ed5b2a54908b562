// A list of at most N items without heap, for every type of item that has a key.
ghost use Rattle.std.specs.Prelude.{◌≡◌, length};
ghost use Rattle.arrayvec.specs.ArrayVec.{array_vec_len};
ghost use Rattle.books.specs.Items.{held};

use crate::faults::ListFault;
use crate::keyed::Keyed;
use arrayvec::ArrayVec;

// The items in the order in which they were added. A cell is an Option because the vector fills
// its unused places with a default, and a point or a descriptor has none.
#[derive(Drop)]
pub struct FixedList<T, const N: usize> {
    cells: ArrayVec<Option<T>, N>,
    ghost whole: { length (held cells.items) ≡ array_vec_len cells },
}

impl<T: Keyed, const N: usize> FixedList<T, N> {
    ghost use Rattle.std.specs.Prelude.{[]};
    ghost use Rattle.books.specs.Lists.{items_of, with_key, adding, Adds};

    pub fn new() -> FixedList<T, N>
        ensures { items_of result ≡ [] }
    {
        FixedList {
            cells: ArrayVec::new(),
        }
    }

    // The item with this key.
    pub fn find(&self, key: T::Key) -> Option<T>
        ensures { result ≡ with_key T.Key.eq T.Keyed.keys key (items_of self.now) }
    {
        // As `flatten` would, whose proof over options did not close.
        let mut items = self.cells.as_slice().iter().filter_map(|cell| *cell);
        items.find(|item| item.key() == key)
    }

    // One item more, unless its key is listed or the list is full.
    pub fn add(&mut self, item: T) -> Result<(), ListFault>
        ensures answer { result ≡ adding T.Key.eq T.Keyed.keys N item (items_of self.old) }
        ensures after { Adds items_of item self.old self.new result }
    {
        if self.find(item.key()).is_some() {
            return Err(ListFault::Listed);
        }
        if self.cells.is_full() {
            return Err(ListFault::Full);
        }
        self.cells.push(Some(item));
        Ok(())
    }
}
