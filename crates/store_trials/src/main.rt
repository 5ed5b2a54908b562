// Settles the same records over each kind of store, piles of them too, and compares the files, lines, days and
// refusals. Reads the file `agreement` and, on standard input, the reference month and the records.
#![tactic(auto)]

mod summary;

use agreement::book::FileBook;
use anyhow::anyhow;
use ledger::day::DayRow;
use ledger::line::LineRow;
use ledger::store::RowStore;
use piles::pile::{Pile, Room, over};
use piles::user::StoreUser;
use settlement::month::{MONTH_LINE, read_month};
use settlement::settlement::Settlement;
use std::fs;
use std::io::Read;
use values::terms::Basis;

// So few rows that some records are refused for space, and images with a rest that holds no whole row.
const ROOM: Room = Room {
    rows: 12,
    line_image: 660,
    day_image: 680,
};

// The piles compared with tables.
const OTHERS: [Pile; 5] = [
    Pile::Image,
    Pile::HeldTable,
    Pile::HeldImage,
    Pile::TwiceHeldTable,
    Pile::ImageAndHeldTable,
];

#[derive(Clone, Copy)]
struct Input<'a> {
    basis: Basis,
    agreement: &'a [u8],
    records: &'a [u8],
}

// What two stores keep of the records.
impl<'a> StoreUser for Input<'a> {
    type Answer = Vec<u8>;

    fn run<L: RowStore<Row = LineRow> + Drop, D: RowStore<Row = DayRow> + Drop>(
        self,
        rt: &HostRuntime,
        lines: L,
        days: D,
    ) -> anyhow::Result<Vec<u8>> {
        let book = FileBook::new(self.agreement);
        let mut settlement = Settlement::open(self.basis, lines, days, book);
        settlement.feed(self.records);
        let mut statement = settlement.finish();
        summary::summary(rt, &mut statement)
    }
}

// Whether what a pile keeps is what the first one keeps.
fn compare(rt: &HostRuntime, name: &str, first: &[u8], other: &[u8]) -> anyhow::Result<()> {
    if first == other {
        println!(rt; "{name}: the same")?;
    } else {
        println!(rt; "{name}: something else")?;
    }
    Ok(())
}

fn run(rt: &HostRuntime, input: Input<'_>) -> anyhow::Result<()> {
    let table = over(rt, Pile::Table, ROOM, input)?;
    println!(rt; "table:")?;
    summary::print(rt, &table)?;
    for pile in OTHERS {
        let other = over(rt, pile, ROOM, input)?;
        compare(rt, pile.name(), &table, &other)?;
    }
    Ok(())
}

fn main(rt: HostRuntime) -> anyhow::Result<()> {
    let agreement = fs::read(&rt, "agreement")?;
    let mut text = Vec::new(rt.alloc());
    rt.stdin().read_to_end(&mut text)?;
    let terms = agreement::reader::open(&agreement).map_err(|_| anyhow!(
        "the agreement is refused"
    ))?;
    let (month, records) = text
        .split_at_checked(MONTH_LINE)
        .ok_or_else(|| anyhow!("there is no month"))?;
    let reference = read_month(month).ok_or_else(|| anyhow!("the month is refused"))?;
    run(
        &rt,
        Input {
            basis: Basis { terms, reference },
            agreement: &agreement,
            records,
        },
    )
}
