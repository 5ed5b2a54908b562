// A statement that takes the records of an input, each with the same book.
ghost use Rattle.std.specs.Prelude.{◌≡◌, ℕ, List};
ghost use Rattle.settlement.specs.Taking.{Took};

use intake::sink::RecordSink;
use ledger::day::DayRow;
use ledger::line::LineRow;
use ledger::store::RowStore;
use rating::book::TariffBook;
use statement::statement::Statement;

#[derive(Drop)]
pub struct Taker<L: RowStore<Row = LineRow>, D: RowStore<Row = DayRow>, B> {
    pub statement: Statement<L, D>,
    pub book: B,
}

impl<L: RowStore<Row = LineRow>, D: RowStore<Row = DayRow>, B: TariffBook> RecordSink
    for Taker<L, D, B> {
    ghost takes = { Took L.RowStore D.RowStore B.TariffBook };

    fn take(&mut self, bytes: &[u8]) {
        let _ = self.statement.take(&self.book, bytes);
    }

    // Every record of another length than a record's is counted alike, so one of no bytes stands for it.
    fn take_overlong(&mut self) {
        let _ = self.statement.take(&self.book, &[]);
    }
}
