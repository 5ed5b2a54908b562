// The settlement of one input.
ghost use Rattle.std.specs.Prelude.{◌≡◌, ℕ, List, [], ◌++◌};
ghost use Rattle.intake.specs.Records.{records_of};
ghost use Rattle.ledger.specs.Ledger.{Kept as StoreKept};
ghost use Rattle.ledger.specs.Rows.{line_keys, day_keys};
ghost use Rattle.rating.specs.Rating.{Book, book_of};
ghost use Rattle.statement.specs.Account.{Entry, Reaches};
ghost use Rattle.statement.specs.Statement.{Model, model, opened};
ghost use Rattle.settlement.specs.Settling.{Settling, take_all, account_all};

use crate::taker::Taker;
use intake::Intake;
use ledger::day::DayRow;
use ledger::line::LineRow;
use ledger::store::RowStore;
use rating::book::TariffBook;
use statement::statement::Statement;
use values::terms::Basis;

#[derive(Drop)]
pub struct Settlement<L: RowStore<Row = LineRow>, D: RowStore<Row = DayRow>, B> {
    intake: Intake<Taker<L, D, B>>,
}

impl<L: RowStore<Row = LineRow>, D: RowStore<Row = DayRow>, B: TariffBook + Drop> Settlement<
    L,
    D,
    B,
> {
    // Nothing read yet.
    pub fn open(basis: Basis, lines: L, days: D, book: B) -> Self
        requires lines { StoreKept line_keys (L.RowStore.ledger lines) (L.RowStore.kept lines) }
        requires days { StoreKept day_keys (D.RowStore.ledger days) (D.RowStore.kept days) }
        ensures began { Settling L.RowStore D.RowStore B.TariffBook (opened basis.terms basis.reference (L.RowStore.ledger lines).most (D.RowStore.ledger days).most) (book_of B.TariffBook book) [] result }
    {
        let statement = Statement::open(basis, lines, days);
        Settlement {
            intake: Intake::new(Taker { statement, book }),
        }
    }

    // The next piece of the records.
    pub fn feed(&mut self, piece: &[u8])
        ensures fed { (start : Model) (b : Book) (xs : List ℕ) → Settling L.RowStore D.RowStore B.TariffBook start b xs self.old → Settling L.RowStore D.RowStore B.TariffBook start b (xs ++ piece.now) self.new }
    {
        self.intake.feed(piece);
    }

    // The statement after all records of the input.
    pub fn finish(self) -> Statement<L, D>
        ensures settled { (start : Model) (b : Book) (xs : List ℕ) → Settling L.RowStore D.RowStore B.TariffBook start b xs self → model L.RowStore D.RowStore result ≡ take_all b start (records_of xs) }
        ensures reached { (start : Model) (b : Book) (xs : List ℕ) (a : List Entry) → Settling L.RowStore D.RowStore B.TariffBook start b xs self → Reaches start a → Reaches (model L.RowStore D.RowStore result) (account_all b start a (records_of xs)) }
    {
        let Settlement { intake } = self;
        let Taker { statement, book: _ } = intake.finish();
        statement
    }
}
