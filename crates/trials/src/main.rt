// Drives a statement and the readers to each of their refusals, and prints what they answer. The statement has room
// for two lines and two days. Standard input has the records, one to a line.
#![tactic(auto)]

use agreement::book::FileBook;
use anyhow::anyhow;
use cdr::faults::Place;
use ledger::day::{DayCell, DayRow};
use ledger::line::{LineCell, LineRow};
use ledger::store::RowStore;
use settlement::month::read_month;
use settlement::refusals::refusal_lines;
use statement::faults::TakeFault;
use statement::posting::Booked;
use statement::statement::{MOST_TAKEN, Statement};
use std::fs;
use std::io::{BufRead, BufReader, Write};
use stores::table::TableStore;
use values::calendar::Month;
use values::terms::Basis;

const ROWS: usize = 2;

// Places of the agreement file, counted from 0, and the byte that is put there.
const DAMAGES: [(usize, u8); 15] = [
    (0, b'p'),
    (9, b'9'),
    (15, b'2'),
    (31, b'1'),
    (36, b'x'),
    (47, b'2'),
    (48, b'A'),
    (54, b'3'),
    (60, b'9'),
    (66, b'l'),
    (72, b' '),
    (80, b'A'),
    (115, b'4'),
    (143, b'4'),
    (150, b'A'),
];

const MONTHS: [&str; 8] = [
    "202403\n", "202413\n", "199912\n", "210001\n", "202403", "20240\n", " 02403\n", "",
];

fn show_fault(rt: &HostRuntime, fault: TakeFault) -> anyhow::Result<()> {
    let number = fault.number();
    let sequential = fault.sequential();
    // One print for each line, since each print is a write of its own.
    match fault.place() {
        None => println!(rt; "refused {number}, sequential {sequential}")?,
        Some(Place::Length(length)) => println!(rt;
            "refused {number}, length {length}, sequential {sequential}"
        )?,
        Some(Place::Field(field)) => println!(rt;
            "refused {number}, field {}, sequential {sequential}",
            field.number()
        )?,
        Some(Place::Column { field, column }) => println!(rt;
            "refused {number}, field {field}, column {column}, sequential {sequential}"
        )?,
    }
    Ok(())
}

fn show(rt: &HostRuntime, answer: Result<Booked, TakeFault>) -> anyhow::Result<()> {
    match answer {
        Ok(Booked { key, day, tenths }) => {
            let month = key.month.number();
            let tariff = key.tariff.number();
            println!(rt;
                "booked in {month} at {tariff}, day {}, {} tenths",
                day.number(),
                tenths.count
            )?;
            Ok(())
        }
        Err(fault) => show_fault(rt, fault),
    }
}

// Takes each record on standard input.
fn take_records<L: RowStore<Row = LineRow>, D: RowStore<Row = DayRow>>(
    rt: &HostRuntime,
    statement: &mut Statement<L, D>,
    book: &FileBook,
) -> anyhow::Result<()> {
    for line in BufReader::new(rt.alloc(), rt.stdin())?.lines(rt.alloc()) {
        let line = line?;
        let answer = statement.take(book, line.as_bytes());
        show(rt, answer)?;
    }
    Ok(())
}

// Takes records of no bytes until no more is taken.
fn spend<L: RowStore<Row = LineRow>, D: RowStore<Row = DayRow>>(
    rt: &HostRuntime,
    statement: &mut Statement<L, D>,
    book: &FileBook,
) -> anyhow::Result<()> {
    // No more than so many can be taken, and the loop has to end.
    for _ in 0..MOST_TAKEN {
        if statement.take(book, &[]) == Err(TakeFault::Spent) {
            break;
        }
    }
    let answer = statement.take(book, &[]);
    println!(rt; "{} records taken", statement.taken())?;
    show(rt, answer)
}

// Writes the file into a buffer that is one byte short, and into one that is longer.
fn write<L: RowStore<Row = LineRow>, D: RowStore<Row = DayRow>>(
    rt: &HostRuntime,
    statement: &mut Statement<L, D>,
) -> anyhow::Result<()> {
    let mut short = [b'-'; 386];
    if let Err(fault) = statement.write_file(&mut short) {
        println!(rt;
            "refused {}, length needed {}",
            fault.number(),
            fault.needed
        )?;
    }
    let mut file = [b'-'; 390];
    if let Ok(length) = statement.write_file(&mut file) {
        println!(rt; "{length} bytes written")?;
    }
    let mut out = rt.stdout();
    out.write_all(&file)?;
    println!(rt)?;
    out.write_all(&refusal_lines(rt.alloc(), &statement.board())?)?;
    Ok(())
}

fn show_open(rt: &HostRuntime, bytes: &[u8]) -> anyhow::Result<()> {
    match agreement::reader::open(bytes) {
        Ok(_) => println!(rt; "agreement opened")?,
        Err(fault) => println!(rt;
            "agreement refused {}, part {}, row {}",
            fault.number(),
            fault.part(),
            fault.row()
        )?,
    }
    Ok(())
}

// Damages the agreement in one place after another, and opens it.
fn damage(rt: &HostRuntime, bytes: &[u8]) -> anyhow::Result<()> {
    for (at, byte) in DAMAGES {
        let mut copy = bytes.to_vec(rt.alloc())?;
        if let Some(place) = copy.get_mut(at) {
            *place = byte;
        }
        show_open(rt, &copy)?;
    }
    Ok(())
}

fn read_months(rt: &HostRuntime) -> anyhow::Result<()> {
    for text in MONTHS {
        match read_month(text.as_bytes()) {
            Some(month) => println!(rt; "month {}", month.number())?,
            None => println!(rt; "month refused")?,
        }
    }
    Ok(())
}

fn run(rt: &HostRuntime, basis: Basis, bytes: &[u8]) -> anyhow::Result<()> {
    let mut lines = [LineCell::default(); ROWS];
    let mut days = [DayCell::default(); ROWS];
    let book = FileBook::new(bytes);
    let mut statement = Statement::open(
        basis,
        TableStore::<LineRow>::new(&mut lines),
        TableStore::<DayRow>::new(&mut days),
    );
    take_records(rt, &mut statement, &book)?;
    write(rt, &mut statement)?;
    spend(rt, &mut statement, &book)
}

fn main(rt: HostRuntime) -> anyhow::Result<()> {
    let bytes = fs::read(&rt, "agreement")?;
    let terms = agreement::reader::open(&bytes).map_err(|_| anyhow!("the agreement is refused"))?;
    let reference = Month::new(202403).ok_or_else(|| anyhow!("no such month"))?;
    run(&rt, Basis { terms, reference }, &bytes)?;
    damage(&rt, &bytes)?;
    show_open(&rt, &[])?;
    read_months(&rt)
}
