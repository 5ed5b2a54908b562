// An agreement opened and its book asked: the terms or the refusal, and the answers to a few questions, on one line.
use agreement::book::FileBook;
use rating::book::TariffBook;
use values::calendar::Day;
use values::labels::{Descriptor, Point};
use values::terms::Terms;

const DESCRIPTORS: [&[u8]; 3] = [b" LOCC", b" LOCN", b"   N1"];

const POINTS: [&[u8]; 2] = [b"SPO01     ", b"RJO02     "];

const DAYS: [u32; 4] = [20231231, 20240101, 20240314, 20240315];

fn print_scenario(rt: &HostRuntime, book: &FileBook, descriptor: Descriptor) -> anyhow::Result<()> {
    match book.scenario(descriptor) {
        Some(s) => print!(rt; " {}/{}/{}", s.minimum(), s.message(), s.least())?,
        None => print!(rt; " -")?,
    }
    Ok(())
}

fn print_tariff(
    rt: &HostRuntime,
    book: &FileBook,
    point: Point,
    descriptor: Descriptor,
    day: Day,
) -> anyhow::Result<()> {
    match book.tariff(point, descriptor, day) {
        Some(t) => print!(rt; " {}", t.number())?,
        None => print!(rt; " -")?,
    }
    Ok(())
}

// The tariffs of a descriptor at a point, day by day.
fn print_tariffs(
    rt: &HostRuntime,
    book: &FileBook,
    point: Point,
    descriptor: Descriptor,
) -> anyhow::Result<()> {
    for day in DAYS.into_iter().filter_map(Day::new) {
        print_tariff(rt, book, point, descriptor, day)?;
    }
    Ok(())
}

// What the book knows of a descriptor.
fn print_descriptor(
    rt: &HostRuntime,
    book: &FileBook,
    descriptor: Descriptor,
) -> anyhow::Result<()> {
    print_scenario(rt, book, descriptor)?;
    for point in POINTS.into_iter().filter_map(Point::read) {
        print_tariffs(rt, book, point, descriptor)?;
    }
    Ok(())
}

fn print_answers(rt: &HostRuntime, book: &FileBook) -> anyhow::Result<()> {
    for descriptor in DESCRIPTORS.into_iter().filter_map(Descriptor::read) {
        print_descriptor(rt, book, descriptor)?;
    }
    println!(rt)?;
    Ok(())
}

fn print_terms(rt: &HostRuntime, terms: Terms) -> anyhow::Result<()> {
    let creditor = terms.creditor().code();
    let debtor = terms.debtor().code();
    let back = terms.months_back();
    let rates = terms.rates();
    print!(rt;
        "opened {creditor} {debtor} {back} {} {}",
        rates.pis(),
        rates.icms()
    )?;
    Ok(())
}

// A refused file's book is asked too: it is a view of any bytes.
pub fn open(rt: &HostRuntime, bytes: &[u8]) -> anyhow::Result<()> {
    match agreement::reader::open(bytes) {
        Ok(terms) => print_terms(rt, terms)?,
        Err(fault) => print!(rt;
            "refused {} {} {}",
            fault.number(),
            fault.part(),
            fault.row()
        )?,
    }
    print_answers(rt, &FileBook::new(bytes))
}
