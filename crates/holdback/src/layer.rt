// The layer: a store, and at most one row that has not gone down to it yet.
ghost use Rattle.std.specs.Prelude.{◌≡◌, false, None, OnErr};
ghost use Rattle.ledger.specs.Ledger.{placed, put_in, takes};
ghost use Rattle.holdback.specs.HoldBack.{ledger_of, layer_of, after_put, goes_down, Holding, StoreKept, LayerKept};

use ledger::row::{Row, earlier, has_key, is_next, join_to};
use ledger::store::{Full, RowStore, Size};

#[derive(Drop)]
pub struct HoldBack<S: RowStore> {
    below: S,
    held: Option<S::Row>,
}

impl<S: RowStore> HoldBack<S> {
    // A layer with nothing held.
    pub fn new(below: S) -> HoldBack<S>
        requires { StoreKept S.Row.Row S.RowStore below }
        ensures below { result.below ≡ below }
        ensures held { result.held ≡ None }
        ensures ledger { ledger_of S.Row.Row S.RowStore result ≡ S.RowStore.ledger below }
        ensures kept { LayerKept S.Row.Row S.RowStore result }
    {
        HoldBack { below, held: None }
    }

    // Puts the held row into the store below, where it fits.
    fn pass_down(&mut self)
        requires { Holding S.Row.Row S.RowStore self.old }
        ensures held { self.new.held ≡ None }
        ensures below { S.RowStore.ledger self.new.below ≡ ledger_of S.Row.Row S.RowStore self.old }
        ensures kept { StoreKept S.Row.Row S.RowStore self.new.below }
        ensures still { self.old.held ≡ None → self.new.below ≡ self.old.below }
    {
        if let Some(held) = self.held.take() {
            let _ = self.below.put(held);
        }
    }

    // Ends the layer: the store below, with the held row put into it.
    pub fn into_below(self) -> S
        requires { LayerKept S.Row.Row S.RowStore self }
        ensures ledger { S.RowStore.ledger result ≡ ledger_of S.Row.Row S.RowStore self }
        ensures kept { StoreKept S.Row.Row S.RowStore result }
    {
        let mut layer = self;
        layer.pass_down();
        layer.below
    }
}

impl<S: RowStore> RowStore for HoldBack<S> {
    type Row = S::Row;

    ghost ledger = { λ s. ledger_of S.Row.Row S.RowStore s };

    ghost kept = { λ s. Holding S.Row.Row S.RowStore s };

    fn find(&mut self, key: <S::Row as Row>::Key) -> Option<S::Row> {
        let found = self.below.find(key);
        let Some(held) = self.held else {
            return found;
        };
        if has_key(self.held, key) {
            Some(join_to(found, held))
        } else {
            found
        }
    }

    fn next(&mut self, after: &Option<<S::Row as Row>::Key>) -> Option<S::Row> {
        let found = self.below.next(after);
        let Some(held) = self.held else {
            return found;
        };
        if is_next::<S::Row>(*after, held.key()) {
            earlier(held, found)
        } else {
            found
        }
    }

    fn size(&mut self) -> Size {
        let size = self.below.size();
        let Some(held) = self.held else {
            return size;
        };
        match self.below.find(held.key()) {
            Some(_) => size,
            None => Size {
                rows: size.rows + 1,
                most: size.most,
            },
        }
    }

    fn put(&mut self, row: S::Row) -> Result<(), Full<S::Row>>
        requires { LayerKept S.Row.Row S.RowStore self.old }
        ensures answer { result ≡ placed row (takes S.Row.Row.keys row (ledger_of S.Row.Row S.RowStore self.old)) }
        ensures after { ledger_of S.Row.Row S.RowStore self.new ≡ put_in S.Row.Row.keys S.Row.Row.joined row (ledger_of S.Row.Row S.RowStore self.old) }
        ensures same { OnErr result (self.new ≡ self.old) }
        ensures kept { LayerKept S.Row.Row S.RowStore self.new }
        ensures layer { layer_of S.RowStore self.new ≡ after_put S.Row.Row.keys S.Row.Row.joined row (layer_of S.RowStore self.old) }
        ensures still { goes_down S.Row.Row.keys S.Row.Row.joined row (layer_of S.RowStore self.old) ≡ false → self.new.below ≡ self.old.below }
    {
        if has_key(self.held, row.key()) {
            self.held = Some(join_to(self.held, row));
            return Ok(());
        }
        let known = self.find(row.key());
        let size = self.size();
        if known.is_none() && size.rows >= size.most {
            return Err(Full { row });
        }
        self.pass_down();
        self.held = Some(row);
        Ok(())
    }

    fn clear(&mut self) {
        self.held = None;
        self.below.clear();
    }
}
