// Layers pile: a layer over a store is a store, so a layer stands over it again.
ghost use Rattle.std.specs.Prelude.{◌≡◌, OnErr};
ghost use Rattle.ledger.specs.Ledger.{placed, takes};
ghost use Rattle.holdback.specs.HoldBack.{ledger_of, layer_of, layer_store, after_put, LayerKept};

use crate::layer::HoldBack;
use ledger::row::Row;
use ledger::store::{Full, RowStore};

// A put through two layers over any store.
pub fn put_through_two<S: RowStore>(
    layers: &mut HoldBack<HoldBack<S>>,
    row: S::Row,
) -> Result<(), Full<S::Row>>
    requires { LayerKept S.Row.Row (layer_store S.Row.Row S.RowStore) layers.old }
    ensures answer { result ≡ placed row (takes S.Row.Row.keys row (ledger_of S.Row.Row (layer_store S.Row.Row S.RowStore) layers.old)) }
    ensures same { OnErr result (layers.new ≡ layers.old) }
    ensures layer { layer_of (layer_store S.Row.Row S.RowStore) layers.new ≡ after_put S.Row.Row.keys S.Row.Row.joined row (layer_of (layer_store S.Row.Row S.RowStore) layers.old) }
    ensures kept { LayerKept S.Row.Row (layer_store S.Row.Row S.RowStore) layers.new }
{
    layers.put(row)
}
