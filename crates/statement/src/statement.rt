// A statement: records taken against a book and booked into a line store and a day store.
mod joins;
mod taking;
mod views;
mod writing;

ghost use Rattle.statement.specs.Law.{Kept, Kept-prop};

use crate::board::RefusalBoard;
use ledger::day::DayRow;
use ledger::line::LineRow;
use ledger::store::RowStore;
use values::terms::Basis;

// The most records that a statement takes.
pub const MOST_TAKEN: u32 = 2_000_000;

#[derive(Drop)]
pub struct Statement<L: RowStore<Row = LineRow>, D: RowStore<Row = DayRow>> {
    basis: Basis,
    lines: L,
    days: D,
    taken: u32,
    board: RefusalBoard,
    ghost kept: { Kept L.RowStore D.RowStore lines days taken board } by { Kept-prop L.RowStore D.RowStore lines days taken board },
}
