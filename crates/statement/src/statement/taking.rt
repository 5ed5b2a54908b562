// Opening a statement, and taking records.
ghost use Rattle.std.specs.Prelude.{◌≡◌, ◌<◌, ◌≤◌, List, []};
ghost use Rattle.ledger.specs.Ledger.{Kept as StoreKept};
ghost use Rattle.ledger.specs.Rows.{line_keys, day_keys};
ghost use Rattle.rating.specs.Rating.{book_of};
ghost use Rattle.statement.specs.Account.{Entry, Reaches, take_noted};
ghost use Rattle.statement.specs.Faults.{take_number};
ghost use Rattle.statement.specs.Statement.{model, opened, placing, after_placing, verdict, with_found, with_fault, take_answer, take_after};

use super::{MOST_TAKEN, Statement};
use crate::board::RefusalBoard;
use crate::faults::{StoreFault, TakeFault};
use crate::posting::{Booked, Posting};
use cdr::faults::charge_to;
use ledger::day::DayRow;
use ledger::line::LineRow;
use ledger::store::{RowStore, room};
use rating::book::TariffBook;
use rating::rate;
use values::terms::Basis;

impl<L: RowStore<Row = LineRow>, D: RowStore<Row = DayRow>> Statement<L, D> {
    // Over the two stores, which it clears.
    pub fn open(basis: Basis, mut lines: L, mut days: D) -> Self
        requires lines { StoreKept line_keys (L.RowStore.ledger lines) (L.RowStore.kept lines) }
        requires days { StoreKept day_keys (D.RowStore.ledger days) (D.RowStore.kept days) }
        ensures model { model L.RowStore D.RowStore result ≡ opened basis.terms basis.reference (L.RowStore.ledger lines).most (D.RowStore.ledger days).most }
        ensures reached { Reaches (model L.RowStore D.RowStore result) [] }
    {
        lines.clear();
        days.clear();
        Statement {
            basis,
            lines,
            days,
            taken: 0,
            board: RefusalBoard::new(),
        }
    }

    // The line and the day put, or neither: both stores are asked before either is changed.
    fn place(&mut self, line: LineRow, day: DayRow) -> Result<(), StoreFault>
        ensures answer { result ≡ placing (model L.RowStore D.RowStore self.old) line day }
        ensures after { model L.RowStore D.RowStore self.new ≡ after_placing (model L.RowStore D.RowStore self.old) line day }
    {
        room(&mut self.lines, line)?;
        room(&mut self.days, day)?;
        self.lines.put(line)?;
        self.days.put(day)?;
        Ok(())
    }

    // The record read, rated and put, or the fault of the first layer that stops it.
    fn attempt<B: TariffBook>(&mut self, book: &B, bytes: &[u8]) -> Result<Posting, TakeFault>
        ensures answer { result ≡ verdict (model L.RowStore D.RowStore self.old) (book_of B.TariffBook book.now) bytes.now }
        ensures after { model L.RowStore D.RowStore self.new ≡ with_found (model L.RowStore D.RowStore self.old) result }
    {
        let call = cdr::read(bytes)?;
        let rated = charge_to(rate(book, self.basis, &call), call.sequential)?;
        let posting = Posting::new(&call, rated);
        charge_to(self.place(posting.line(), posting.day()), call.sequential)?;
        Ok(posting)
    }

    // The record counted under the number of its fault.
    fn note(&mut self, fault: TakeFault)
        requires room { self.old.taken < 2000000 }
        requires counted { 2 ≤ take_number fault }
        ensures after { model L.RowStore D.RowStore self.new ≡ with_fault (model L.RowStore D.RowStore self.old) fault }
    {
        self.taken += 1;
        self.board.note(fault.number(), fault.sequential());
    }

    // One record taken: booked, or refused and counted; past the most that is taken, neither.
    pub fn take<B: TariffBook>(&mut self, book: &B, bytes: &[u8]) -> Result<Booked, TakeFault>
        ensures answer { result ≡ take_answer (model L.RowStore D.RowStore self.old) (book_of B.TariffBook book.now) bytes.now }
        ensures after { model L.RowStore D.RowStore self.new ≡ take_after (model L.RowStore D.RowStore self.old) (book_of B.TariffBook book.now) bytes.now }
        ensures reached { (a : List Entry) → Reaches (model L.RowStore D.RowStore self.old) a → Reaches (model L.RowStore D.RowStore self.new) (take_noted a (book_of B.TariffBook book.now) bytes.now result) }
    {
        if self.taken >= MOST_TAKEN {
            return Err(TakeFault::Spent);
        }
        match self.attempt(book, bytes) {
            Ok(posting) => {
                self.taken += 1;
                Ok(posting.booked())
            }
            Err(fault) => {
                self.note(fault);
                Err(fault)
            }
        }
    }
}
