// Settles one month. It reads the file `agreement` in the current folder and, on standard input, the reference month
// and the call records, and prints the DETRAF file and what was refused. An argument says which stores keep the rows.
#![tactic(auto)]

use account::declare;
use agreement::book::FileBook;
use anyhow::anyhow;
use desk::agreements::{read_agreement, read_terms};
use desk::input::{feed_all, read_reference};
use ledger::day::DayRow;
use ledger::line::LineRow;
use ledger::store::RowStore;
use piles::pile::{Pile, ROOM_FOR_500, over};
use piles::user::StoreUser;
use settlement::refusals::refusal_lines;
use settlement::settlement::Settlement;
use statement::statement::Statement;
use std::env;
use std::io::Write;
use std::process::ExitCode;
use values::terms::Basis;

// The stores that the arguments may ask for.
const CHOICES: [Pile; 4] = [Pile::Table, Pile::Image, Pile::HeldTable, Pile::HeldImage];

// Bytes of the longest file: a line for each row, and the total line.
const FILE: usize = 64_629;

// Prints the file, and a line for each number that refused a record.
fn print<L: RowStore<Row = LineRow>, D: RowStore<Row = DayRow>>(
    rt: &HostRuntime,
    statement: &mut Statement<L, D>,
) -> anyhow::Result<()> {
    let mut file = vec![in rt.alloc(); 0u8; FILE]?;
    let length = declare(statement, &mut file).map_err(|_| anyhow!("the file does not fit"))?;
    file.truncate(length);
    let refused = refusal_lines(rt.alloc(), &statement.board())?;
    let mut out = rt.stdout();
    out.write_all(&file)?;
    out.write_all(&refused)?;
    Ok(())
}

// The settlement of the records on standard input.
#[derive(Drop)]
struct Job<'a> {
    basis: Basis,
    book: FileBook<'a>,
}

impl<'a> StoreUser for Job<'a> {
    type Answer = ();

    fn run<L: RowStore<Row = LineRow> + Drop, D: RowStore<Row = DayRow> + Drop>(
        self,
        rt: &HostRuntime,
        lines: L,
        days: D,
    ) -> anyhow::Result<()> {
        let mut settlement = Settlement::open(self.basis, lines, days, self.book);
        feed_all(rt, &mut settlement)?;
        let mut statement = settlement.finish();
        print(rt, &mut statement)
    }
}

// Which stores the arguments ask for.
fn read_choice(rt: &HostRuntime) -> anyhow::Result<Pile> {
    let mut words = env::args(rt)?.skip(1);
    let Some(word) = words.next() else {
        return Ok(Pile::Table);
    };
    if word.as_str() == "--store"
        && let Some(name) = words.next()
        && let Some(pile) = CHOICES.iter().find(|pile| pile.name() == name.as_str())
        && words.next().is_none()
    {
        return Ok(*pile);
    }
    Err(anyhow!("usage: settle [--store table|image|held-table|held-image] < RECORDS"))
}

fn settle(rt: &HostRuntime) -> anyhow::Result<()> {
    let pile = read_choice(rt)?;
    let bytes = read_agreement(rt)?;
    let terms = read_terms(rt, &bytes)?;
    let reference = read_reference(rt)?;
    let book = FileBook::new(&bytes);
    let basis = Basis { terms, reference };
    over(rt, pile, ROOM_FOR_500, Job { basis, book })
}

fn main(rt: HostRuntime) -> ExitCode {
    match settle(&rt) {
        Ok(()) => ExitCode::SUCCESS,
        Err(why) => {
            let _ = eprintln!(rt; "settle: {why}");
            ExitCode::FAILURE
        }
    }
}
