// A declared file contested line by line.
ghost use Rattle.std.specs.Prelude.{◌≡◌, ◌≤◌, length, OnOk};
ghost use Rattle.declared.specs.Details.{details};
ghost use Rattle.declared.specs.File.{read_file, seen_file};
ghost use Rattle.detraf.specs.Fields.{written};
ghost use Rattle.rating.specs.Rating.{book_of};
ghost use Rattle.statement.specs.Statement.{model};
ghost use Rattle.verdicts.specs.Contests.{is_like, admitted, verdict_bytes, contest_answer, contest_after};

use crate::faults::ContestFault;
use crate::judging::judge;
use declared::file::{Declared, read};
use declared::lines::Head;
use ledger::day::DayRow;
use ledger::line::LineRow;
use ledger::store::RowStore;
use rating::book::TariffBook;
use statement::statement::Statement;
use values::terms::Basis;

// Whether a file's parties and reference month are these.
fn is_like(basis: Basis, head: Head) -> bool
    ensures { result ≡ is_like basis.terms basis.reference head }
{
    let own = Head {
        creditor: basis.terms.creditor().code(),
        debtor: basis.terms.debtor().code(),
        reference: basis.reference.number(),
    };
    head == own
}

// Refuses a file of other parties or another month, and a buffer of less than so many bytes.
fn admit(basis: Basis, head: Head, count: usize, room: usize) -> Result<(), ContestFault>
    ensures value { result ≡ admitted basis.terms basis.reference head count room }
    ensures fits { OnOk result (count ≤ room) }
{
    if !is_like(basis, head) {
        return Err(ContestFault::Unlike);
    }
    if room < count {
        return Err(ContestFault::Short);
    }
    Ok(())
}

// Writes the verdicts of the detail lines, in the order of the lines, from the buffer's start.
fn write_verdicts<B: TariffBook>(basis: Basis, book: &B, file: Declared<'_>, out: &mut [u8])
    requires { length (details (seen_file file)) ≤ length out.old }
    ensures { out.new ≡ written 0 (verdict_bytes (book_of B.TariffBook book.now) basis.terms basis.reference (seen_file file.entry)) out.old }
{
    // By index: of a buffer whose slots a `zip` lent for writing nothing is known afterwards.
    for (i, line) in file.details().enumerate() {
        out[i] = judge(basis, book, line).code();
    }
}

// Gives each detail line of a declared file its verdict, one byte each, and answers how many they are. The buffer keeps
// what lies past them, and stays as it was where the contest is refused.
pub fn contest<L: RowStore<Row = LineRow>, D: RowStore<Row = DayRow>, B: TariffBook>(
    statement: &Statement<L, D>,
    book: &B,
    bytes: &[u8],
    out: &mut [u8],
) -> Result<usize, ContestFault>
    ensures answer { result ≡ contest_answer (model L.RowStore D.RowStore statement.now).terms (model L.RowStore D.RowStore statement.now).reference (read_file bytes.now) out.old }
    ensures after { out.new ≡ contest_after (book_of B.TariffBook book.now) (model L.RowStore D.RowStore statement.now).terms (model L.RowStore D.RowStore statement.now).reference (read_file bytes.now) out.old }
{
    let file = read(bytes)?;
    let basis = statement.basis();
    let count = file.detail_count();
    admit(basis, file.head(), count, out.len())?;
    write_verdicts(basis, book, file, out);
    Ok(count)
}
