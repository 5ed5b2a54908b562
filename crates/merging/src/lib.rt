// The rows of one store put into another.
#![tactic(auto)]

ghost use Rattle.std.specs.Prelude.{◌≡◌, [], length, if◌then◌else◌};
ghost use Rattle.ledger.specs.Ledger.{Kept, holds, with_rows};
ghost use Rattle.merging.specs.Merges.{merge_rows, poured, Orderless};

use ledger::row::Row;
use ledger::store::RowStore;

// 1 if the store holds the row's key, and else 0.
fn held<S: RowStore>(store: &mut S, row: S::Row) -> u128
    requires { Kept S.Row.Row.keys (S.RowStore.ledger store.old) (S.RowStore.kept store.old) }
    ensures answer { result ≡ (if holds S.Row.Row.keys (S.Row.Row.keys.key_of row) (S.RowStore.ledger store.old).rows then 1 else 0) }
    ensures same { store.new ≡ store.old }
{
    u128::from(store.find(row.key()).is_some())
}

// How many rows the receiver has once it has the giver's rows too: those of both, less those that both have.
pub fn rows_together<S: RowStore, G: RowStore<Row = S::Row>>(
    receiver: &mut S,
    giver: &mut G,
) -> u128
    requires receiver { Kept S.Row.Row.keys (S.RowStore.ledger receiver.old) (S.RowStore.kept receiver.old) }
    requires giver { Kept S.Row.Row.keys (G.RowStore.ledger giver.old) (G.RowStore.kept giver.old) }
    ensures answer { result ≡ length (merge_rows S.Row.Row.keys S.Row.Row.joined (S.RowStore.ledger receiver.old).rows (G.RowStore.ledger giver.old).rows) }
    ensures receiver { receiver.new ≡ receiver.old }
    ensures giver { giver.new ≡ giver.old }
{
    let mut together = receiver.size().rows as u128 + giver.size().rows as u128;
    let mut at = giver.next(&None);
    while let Some(row) = at {
        together -= held(receiver, row);
        at = giver.next(&Some(row.key()));
    }
    together
}

// Puts the giver's rows into the receiver in key order, and clears the giver. A row that the receiver refuses is left
// out: ask `rows_together` first.
pub fn pour<S: RowStore, G: RowStore<Row = S::Row>>(receiver: &mut S, giver: &mut G)
    requires receiver { Kept S.Row.Row.keys (S.RowStore.ledger receiver.old) (S.RowStore.kept receiver.old) }
    requires giver { Kept S.Row.Row.keys (G.RowStore.ledger giver.old) (G.RowStore.kept giver.old) }
    ensures poured { S.RowStore.ledger receiver.new ≡ poured S.Row.Row.keys S.Row.Row.joined (S.RowStore.ledger receiver.old) (G.RowStore.ledger giver.old).rows }
    ensures cleared { G.RowStore.ledger giver.new ≡ with_rows (G.RowStore.ledger giver.old) [] }
    ensures receiver { Kept S.Row.Row.keys (S.RowStore.ledger receiver.new) (S.RowStore.kept receiver.new) }
    ensures giver { Kept S.Row.Row.keys (G.RowStore.ledger giver.new) (G.RowStore.kept giver.new) }
    ensures orderless { Orderless S.Row.Row.keys S.Row.Row.joined }
{
    let mut at = giver.next(&None);
    while let Some(row) = at {
        let _ = receiver.put(row);
        at = giver.next(&Some(row.key()));
    }
    giver.clear();
}
