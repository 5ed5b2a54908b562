// What is done over two stores, whatever they are made of.
ghost use Rattle.ledger.specs.Ledger.{Kept as StoreKept};
ghost use Rattle.ledger.specs.Rows.{line_keys, day_keys};

use holdback::layer::HoldBack;
use ledger::day::DayRow;
use ledger::line::LineRow;
use ledger::store::RowStore;

// Stands in for a closure, which could not be generic over the types of its stores.
pub trait StoreUser: Drop {
    type Answer;

    fn run<L: RowStore<Row = LineRow> + Drop, D: RowStore<Row = DayRow> + Drop>(
        self,
        rt: &HostRuntime,
        lines: L,
        days: D,
    ) -> anyhow::Result<Self::Answer>
        requires lines { StoreKept line_keys (L.RowStore.ledger lines) (L.RowStore.kept lines) }
        requires days { StoreKept day_keys (D.RowStore.ledger days) (D.RowStore.kept days) };
}

// A user over a hold-back layer on each store.
#[derive(Drop)]
pub(crate) struct Held<U> {
    pub user: U,
}

impl<U: StoreUser> StoreUser for Held<U> {
    type Answer = U::Answer;

    fn run<L: RowStore<Row = LineRow> + Drop, D: RowStore<Row = DayRow> + Drop>(
        self,
        rt: &HostRuntime,
        lines: L,
        days: D,
    ) -> anyhow::Result<U::Answer> {
        self.user.run(rt, HoldBack::new(lines), HoldBack::new(days))
    }
}

// A user over a hold-back layer on the days alone.
#[derive(Drop)]
pub(crate) struct DaysHeld<U> {
    pub user: U,
}

impl<U: StoreUser> StoreUser for DaysHeld<U> {
    type Answer = U::Answer;

    fn run<L: RowStore<Row = LineRow> + Drop, D: RowStore<Row = DayRow> + Drop>(
        self,
        rt: &HostRuntime,
        lines: L,
        days: D,
    ) -> anyhow::Result<U::Answer> {
        self.user.run(rt, lines, HoldBack::new(days))
    }
}
