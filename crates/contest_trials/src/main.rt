// Contests DETRAF files and prints the verdicts and the months, or the refusal. Reads the files `agreement` and `records`
// (the reference month's line and our records) and, on standard input, the declared files, each followed by an empty line.
#![tactic(auto)]

ghost use Rattle.std.specs.Prelude.{◌≡◌};
ghost use Rattle.ledger.specs.Ledger.{Kept as StoreKept};
ghost use Rattle.ledger.specs.Rows.{line_keys, day_keys};

use agreement::book::FileBook;
use anyhow::anyhow;
use declared::faults::Place;
use declared::file;
use ledger::day::{DayCell, DayRow};
use ledger::line::{LineCell, LineRow};
use ledger::store::RowStore;
use settlement::month::{MONTH_LINE, read_month};
use settlement::settlement::Settlement;
use statement::statement::Statement;
use std::fs;
use std::io::{BufRead, BufReader};
use stores::table::TableStore;
use values::terms::Basis;
use verdicts::contesting::contest;
use verdicts::faults::ContestFault;
use verdicts::months::{MonthContest, contest_month};

const ROWS: usize = 12;

// Bytes for verdicts.
const ROOM: usize = 8;

// How many months before the reference month, the earliest first.
const BACK: [u8; 3] = [2, 1, 0];

fn show_fault(rt: &HostRuntime, fault: ContestFault) -> anyhow::Result<()> {
    let number = fault.number();
    match fault.place() {
        Some(Place::Length(length)) => println!(rt; "refused {number} {length}")?,
        Some(Place::Field { line, field }) => println!(rt; "refused {number} {line} {field}")?,
        Some(Place::Line { line }) => println!(rt; "refused {number} {line} 0")?,
        None => println!(rt; "refused {number}")?,
    }
    Ok(())
}

// The verdicts as digits; a byte that stayed as it was is shown as it is.
fn show_verdicts(rt: &HostRuntime, out: &[u8]) -> anyhow::Result<()> {
    for b in out {
        match *b {
            0..=4 => print!(rt; "{b}")?,
            other => print!(rt; "{}", other as char)?,
        }
    }
    Ok(())
}

fn show_months<L: RowStore<Row = LineRow>, D: RowStore<Row = DayRow>>(
    rt: &HostRuntime,
    statement: &mut Statement<L, D>,
    bytes: &[u8],
) -> anyhow::Result<()>
    ensures { statement.new ≡ statement.old }
{
    let Ok(file) = file::read(bytes) else {
        return Ok(());
    };
    for back in BACK {
        if let Some(contest) = contest_month(statement, file, back) {
            let MonthContest {
                month,
                declared,
                expected,
                contestable,
            } = contest;
            print!(rt;
                " {} {declared} {expected} {}",
                month.number(),
                u8::from(contestable)
            )?;
        }
    }
    println!(rt)?;
    Ok(())
}

fn show<L: RowStore<Row = LineRow>, D: RowStore<Row = DayRow>>(
    rt: &HostRuntime,
    statement: &mut Statement<L, D>,
    book: &FileBook,
    bytes: &[u8],
) -> anyhow::Result<()>
    ensures { statement.new ≡ statement.old }
{
    let mut out = [b'-'; ROOM];
    match contest(statement, book, bytes, &mut out) {
        Ok(_) => {
            show_verdicts(rt, &out)?;
            show_months(rt, statement, bytes)
        }
        Err(fault) => show_fault(rt, fault),
    }
}

// Each file on standard input.
fn show_all<L: RowStore<Row = LineRow>, D: RowStore<Row = DayRow>>(
    rt: &HostRuntime,
    statement: &mut Statement<L, D>,
    book: &FileBook,
) -> anyhow::Result<()> {
    let mut text = String::new(rt.alloc());
    for line in BufReader::new(rt.alloc(), rt.stdin())?.lines(rt.alloc()) {
        let line = line?;
        if line.is_empty() {
            show(rt, statement, book, text.as_bytes())?;
            text.clear();
        } else {
            text.push_str(&line)?;
            text.push('\n')?;
        }
    }
    Ok(())
}

// Settles the records over two stores, and contests each file against them. The stores are of any type, since the borrow
// check does not cover a settlement whose own type lends them for writing.
fn run<L: RowStore<Row = LineRow> + Drop, D: RowStore<Row = DayRow> + Drop>(
    rt: &HostRuntime,
    basis: Basis,
    book: FileBook<'_>,
    records: &[u8],
    lines: L,
    days: D,
) -> anyhow::Result<()>
    requires lines { StoreKept line_keys (L.RowStore.ledger lines) (L.RowStore.kept lines) }
    requires days { StoreKept day_keys (D.RowStore.ledger days) (D.RowStore.kept days) }
{
    let mut settlement = Settlement::open(basis, lines, days, book);
    settlement.feed(records);
    show_all(rt, &mut settlement.finish(), &book)
}

fn main(rt: HostRuntime) -> anyhow::Result<()> {
    let agreement = fs::read(&rt, "agreement")?;
    let records = fs::read(&rt, "records")?;
    let terms = agreement::reader::open(&agreement).map_err(|_| anyhow!(
        "the agreement is refused"
    ))?;
    let (month, records) = records
        .split_at_checked(MONTH_LINE)
        .ok_or_else(|| anyhow!("there is no month"))?;
    let reference = read_month(month).ok_or_else(|| anyhow!("the month is refused"))?;
    let mut lines = [LineCell::default(); ROWS];
    let mut days = [DayCell::default(); ROWS];
    run(
        &rt,
        Basis { terms, reference },
        FileBook::new(&agreement),
        records,
        TableStore::<LineRow>::new(&mut lines),
        TableStore::<DayRow>::new(&mut days),
    )
}
