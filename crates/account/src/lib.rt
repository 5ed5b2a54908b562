// The DETRAF file of a statement, with the theorem of whole runs: what holds of every statement that takes and joins
// lead to, in terms of its account.
#![tactic(auto)]

ghost use Rattle.std.specs.Prelude.{◌≡◌};
ghost use Rattle.detraf.specs.File.{answer_of, after_of};
ghost use Rattle.statement.specs.Statement.{model};
ghost use Rattle.account.specs.Settled.{Settled};

use detraf::file::Short;
use ledger::day::DayRow;
use ledger::line::LineRow;
use ledger::store::RowStore;
use statement::statement::Statement;

// Writes the DETRAF file into the buffer, which keeps what lies past it, and answers its length. A buffer that is too
// short stays as it was. The statement stays as it was either way. The last clause is the theorem.
pub fn declare<L: RowStore<Row = LineRow>, D: RowStore<Row = DayRow>>(
    statement: &mut Statement<L, D>,
    out: &mut [u8],
) -> Result<usize, Short>
    ensures answer { result ≡ answer_of (model L.RowStore D.RowStore statement.old).lines.rows out.old }
    ensures after { out.new ≡ after_of (model L.RowStore D.RowStore statement.old).terms (model L.RowStore D.RowStore statement.old).reference (model L.RowStore D.RowStore statement.old).lines.rows out.old }
    ensures same { statement.new ≡ statement.old }
    ensures settled { Settled }
{
    statement.write_file(out)
}
