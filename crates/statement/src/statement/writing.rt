// The DETRAF file of a statement.
ghost use Rattle.std.specs.Prelude.{◌≡◌};
ghost use Rattle.detraf.specs.File.{answer_of, after_of};
ghost use Rattle.statement.specs.Statement.{model};

use super::Statement;
use detraf::file::{Short, write_file};
use ledger::day::DayRow;
use ledger::line::LineRow;
use ledger::store::RowStore;

impl<L: RowStore<Row = LineRow>, D: RowStore<Row = DayRow>> Statement<L, D> {
    // Writes the file into the buffer, which keeps what lies past it, and answers its length. A buffer that is too
    // short stays as it was. The statement stays as it was either way.
    pub fn write_file(&mut self, out: &mut [u8]) -> Result<usize, Short>
        ensures answer { result ≡ answer_of (model L.RowStore D.RowStore self.old).lines.rows out.old }
        ensures after { out.new ≡ after_of (model L.RowStore D.RowStore self.old).terms (model L.RowStore D.RowStore self.old).reference (model L.RowStore D.RowStore self.old).lines.rows out.old }
        ensures same { self.new ≡ self.old }
    {
        write_file(&mut self.lines, self.basis, out)
    }
}
