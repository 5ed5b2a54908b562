// What a statement shows of itself.
ghost use Rattle.std.specs.Prelude.{◌≡◌, length};
ghost use Rattle.ledger.specs.Ledger.{next_row};
ghost use Rattle.ledger.specs.Rows.{line_keys, day_keys};
ghost use Rattle.statement.specs.Statement.{model};

use super::Statement;
use crate::board::RefusalBoard;
use ledger::day::{DayKey, DayRow};
use ledger::line::{LineKey, LineRow};
use ledger::store::RowStore;
use values::calendar::Month;
use values::terms::{Basis, Terms};

impl<L: RowStore<Row = LineRow>, D: RowStore<Row = DayRow>> Statement<L, D> {
    pub fn basis(&self) -> Basis
        ensures terms { result.terms ≡ (model L.RowStore D.RowStore self.now).terms }
        ensures reference { result.reference ≡ (model L.RowStore D.RowStore self.now).reference }
    {
        self.basis
    }

    pub fn terms(&self) -> Terms
        ensures { result ≡ (model L.RowStore D.RowStore self.now).terms }
    {
        let Basis { terms, .. } = self.basis;
        terms
    }

    pub fn reference(&self) -> Month
        ensures { result ≡ (model L.RowStore D.RowStore self.now).reference }
    {
        let Basis { reference, .. } = self.basis;
        reference
    }

    // How many records were taken.
    pub fn taken(&self) -> u32
        ensures { result ≡ (model L.RowStore D.RowStore self.now).taken }
    {
        self.taken
    }

    pub fn board(&self) -> RefusalBoard
        ensures { result ≡ (model L.RowStore D.RowStore self.now).board }
    {
        self.board
    }

    // How many lines there are.
    pub fn line_count(&mut self) -> usize
        ensures answer { result ≡ length (model L.RowStore D.RowStore self.old).lines.rows }
        ensures same { self.new ≡ self.old }
    {
        self.lines.size().rows
    }

    // The first line, or the first above a key.
    pub fn next_line(&mut self, after: &Option<LineKey>) -> Option<LineRow>
        ensures answer { result ≡ next_row line_keys after.now (model L.RowStore D.RowStore self.old).lines.rows }
        ensures same { self.new ≡ self.old }
    {
        self.lines.next(after)
    }

    // The first day, or the first above a key.
    pub fn next_day(&mut self, after: &Option<DayKey>) -> Option<DayRow>
        ensures answer { result ≡ next_row day_keys after.now (model L.RowStore D.RowStore self.old).days.rows }
        ensures same { self.new ≡ self.old }
    {
        self.days.next(after)
    }
}
