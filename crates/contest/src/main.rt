// Contests a declared DETRAF file. It reads the file `agreement` in the current folder, the declared file that its
// argument names and, on standard input, the reference month and our records, and prints for each line and each month
// what is wrong with it.
#![tactic(auto)]

mod report;

ghost use Rattle.ledger.specs.Ledger.{Kept as StoreKept};
ghost use Rattle.ledger.specs.Rows.{line_keys, day_keys};

use agreement::book::FileBook;
use anyhow::anyhow;
use desk::agreements::{read_agreement, read_terms};
use desk::files::read_named;
use desk::input::{feed_all, read_reference};
use ledger::day::{DayCell, DayRow};
use ledger::line::{LineCell, LineRow};
use ledger::store::RowStore;
use report::report;
use settlement::settlement::Settlement;
use std::env;
use std::process::ExitCode;
use stores::table::TableStore;
use values::terms::Basis;

// Rows of each store.
const ROWS: usize = 500;

// The bytes of the declared file; none where it cannot be read, which is then said.
fn read_declared(rt: &HostRuntime) -> anyhow::Result<Option<Vec<u8>>> {
    let mut words = env::args(rt)?.skip(1);
    let (Some(name), None) = (words.next(), words.next()) else {
        return Err(anyhow!("usage: contest DECLARED < RECORDS"));
    };
    read_named(rt, "contest", &name)
}

// Settles the records on standard input over two stores, and contests the declared file against them. The stores are of
// any type, since the borrow check does not cover a settlement whose own type lends them for writing.
fn contest_over<L: RowStore<Row = LineRow> + Drop, D: RowStore<Row = DayRow> + Drop>(
    rt: &HostRuntime,
    basis: Basis,
    book: FileBook<'_>,
    declared: &[u8],
    lines: L,
    days: D,
) -> anyhow::Result<ExitCode>
    requires lines { StoreKept line_keys (L.RowStore.ledger lines) (L.RowStore.kept lines) }
    requires days { StoreKept day_keys (D.RowStore.ledger days) (D.RowStore.kept days) }
{
    let mut settlement = Settlement::open(basis, lines, days, book);
    feed_all(rt, &mut settlement)?;
    report(rt, &mut settlement.finish(), &book, declared)
}

fn contest(rt: &HostRuntime) -> anyhow::Result<ExitCode> {
    let Some(declared) = read_declared(rt)? else {
        return Ok(ExitCode::FAILURE);
    };
    let agreement = read_agreement(rt)?;
    let terms = read_terms(rt, &agreement)?;
    let reference = read_reference(rt)?;
    let mut lines = vec![in rt.alloc(); LineCell::default(); ROWS]?;
    let mut days = vec![in rt.alloc(); DayCell::default(); ROWS]?;
    contest_over(
        rt,
        Basis { terms, reference },
        FileBook::new(&agreement),
        &declared,
        TableStore::<LineRow>::new(&mut lines),
        TableStore::<DayRow>::new(&mut days),
    )
}

fn main(rt: HostRuntime) -> ExitCode {
    match contest(&rt) {
        Ok(code) => code,
        Err(why) => {
            let _ = eprintln!(rt; "contest: {why}");
            ExitCode::FAILURE
        }
    }
}
