// Reads a DETRAF file and prints its lines, or the refusal.
use crate::text::Text;
use declared::faults::{Place, ReadFault};
use declared::file;
use declared::file::Declared;
use declared::lines::{DeclaredLine, DetailLine, TotalLine};
use detraf::amounts::Amounts;

// How many lines of fifteen nines pass 64 bits when summed.
const MANY: usize = 18_447;

// Their sums' lowest fifteen digits, and their sums modulo 2^64.
const TOTALS: [u64; 2] = [999_999_999_981_553, 255_926_290_429_937];

fn print_figures(
    rt: &HostRuntime,
    calls: u64,
    tenths: u64,
    tariff: u32,
    amounts: Amounts,
) -> anyhow::Result<()> {
    let Amounts {
        net,
        pis,
        icms,
        gross,
    } = amounts;
    println!(rt; "{calls} {tenths} {tariff} {net} {pis} {icms} {gross}")?;
    Ok(())
}

fn print_detail(rt: &HostRuntime, line: DetailLine<'_>) -> anyhow::Result<()> {
    let point = Text { bytes: line.point };
    let descriptor = Text {
        bytes: line.descriptor,
    };
    print!(rt; "{} {point} {descriptor} ", line.month)?;
    print_figures(rt, line.calls, line.tenths, line.tariff, line.amounts)
}

fn print_total(rt: &HostRuntime, line: TotalLine) -> anyhow::Result<()> {
    print!(rt; "total ")?;
    print_figures(rt, line.calls, line.tenths, 0, line.amounts)
}

fn print_lines(rt: &HostRuntime, file: Declared<'_>) -> anyhow::Result<()> {
    let head = file.head();
    let count = file.detail_count();
    println!(rt;
        "{} {} {}, {count} details",
        head.creditor, head.debtor, head.reference
    )?;
    for line in (0..=count).filter_map(|i| file.line(i)) {
        match line {
            DeclaredLine::Detail(line) => print_detail(rt, line)?,
            DeclaredLine::Total(line) => print_total(rt, line)?,
        }
    }
    Ok(())
}

fn print_fault(rt: &HostRuntime, fault: ReadFault) -> anyhow::Result<()> {
    let number = fault.number();
    match fault.place() {
        Place::Length(length) => println!(rt; "refused {number} {length}")?,
        Place::Field { line, field } => println!(rt; "refused {number} {line} {field}")?,
        Place::Line { line } => println!(rt; "refused {number} {line} 0")?,
    }
    Ok(())
}

pub fn read(rt: &HostRuntime, bytes: &[u8]) -> anyhow::Result<()> {
    match file::read(bytes) {
        Ok(file) => print_lines(rt, file),
        Err(fault) => print_fault(rt, fault),
    }
}

// A file of so many lines that their sums pass 64 bits.
fn wide_file(heap: std::alloc::Global, total: u64) -> anyhow::Result<String> {
    let mut text = String::new(heap);
    for i in 0..MANY {
        let line = format!(in heap;
            "041187202403202403P{i:09}00 LOCN 00000000000100000000000010000000{0}{0}{0}{0}\n",
            "999999999999999"
        )?;
        text.push_str(&line)?;
    }
    let line = format!(in heap;
        "041187202403202403          01      {MANY:012}{MANY:013}0000000{total:015}{total:015}{total:015}{total:015}\n"
    )?;
    text.push_str(&line)?;
    Ok(text)
}

// Wide files with a total that is wrong only in what it leaves out.
pub fn read_wide(rt: &HostRuntime) -> anyhow::Result<()> {
    for total in TOTALS {
        read(rt, wide_file(rt.alloc(), total)?.as_bytes())?;
    }
    Ok(())
}
