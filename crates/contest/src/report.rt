// The report: each line with its verdict in words, each month with what both sides have, and a summary.
use agreement::book::FileBook;
use declared::file;
use declared::file::Declared;
use declared::lines::{DetailLine, Head};
use desk::refusals::Refusal;
use detraf::amounts::Amounts;
use detraf::line::LINE_WIDTH;
use ledger::day::DayRow;
use ledger::line::LineRow;
use ledger::store::RowStore;
use ledger::traffic::Traffic;
use statement::statement::Statement;
use std::process::ExitCode;
use std::{fmt, str};
use values::rates::Tariff;
use values::terms::Basis;
use verdicts::contesting::contest;
use verdicts::faults::ContestFault;
use verdicts::judging::judge;
use verdicts::months::{MonthContest, contest_month};
use verdicts::verdict::Verdict;

// How many months before the reference month, the earliest first.
const BACK: [u8; 3] = [2, 1, 0];

// For a person to read; a verdict is the library's, which prints nothing.
fn words(verdict: Verdict) -> &'static str {
    match verdict {
        Verdict::Right => "right",
        Verdict::Month => "month not of this statement",
        Verdict::Tariff => "tariff not in the book",
        Verdict::Net => "wrong net",
        Verdict::Tax => "wrong tax or gross",
    }
}

// Hundredths, with a decimal comma.
#[derive(Clone, Copy)]
struct Hundredths(u128);

impl fmt::Display for Hundredths {
    fn fmt<W: fmt::Write>(&self, f: &mut fmt::Formatter<W>) -> fmt::Result {
        write!(f, "{},{:02}", self.0 / 100, self.0 % 100)
    }
}

fn print_amounts(rt: &HostRuntime, name: &str, amounts: Amounts) -> anyhow::Result<()> {
    let Amounts {
        net,
        pis,
        icms,
        gross,
    } = amounts;
    let [net, pis, icms, gross] = [net, pis, icms, gross].map(|cents| Hundredths(cents as u128));
    println!(rt; "    {name} net {net}, PIS/COFINS {pis}, ICMS {icms}, gross {gross}")?;
    Ok(())
}

// What the amounts of a line should be.
fn print_expected(rt: &HostRuntime, basis: Basis, line: DetailLine<'_>) -> anyhow::Result<()> {
    if let Some((traffic, tariff)) = Traffic::new(line.calls, line.tenths).zip(Tariff::new(
        line.tariff,
    )) {
        print_amounts(
            rt,
            "expected",
            Amounts::new(traffic, tariff, basis.terms.rates()),
        )?;
    }
    Ok(())
}

fn print_line(
    rt: &HostRuntime,
    number: usize,
    line: DetailLine<'_>,
    verdict: Verdict,
    basis: Basis,
) -> anyhow::Result<()> {
    let DetailLine {
        month,
        calls,
        tenths,
        tariff,
        ..
    } = line;
    let point = str::from_utf8(line.point)?.trim();
    let descriptor = str::from_utf8(line.descriptor)?.trim();
    println!(rt;
        "line {number}: {month} {point} {descriptor} at {},{:06}, {calls} calls, {tenths} tenths: {}",
        tariff / 1_000_000,
        tariff % 1_000_000,
        words(verdict)
    )?;
    print_amounts(rt, "declared", line.amounts)?;
    match verdict {
        Verdict::Net | Verdict::Tax => print_expected(rt, basis, line),
        _ => Ok(()),
    }
}

fn print_lines(
    rt: &HostRuntime,
    basis: Basis,
    book: &FileBook,
    file: Declared<'_>,
) -> anyhow::Result<()> {
    for (i, line) in file.details().enumerate() {
        let verdict = judge(basis, book, line);
        print_line(rt, i + 1, line, verdict, basis)?;
    }
    Ok(())
}

fn print_month(rt: &HostRuntime, contest: MonthContest) -> anyhow::Result<()> {
    let MonthContest {
        month,
        declared,
        expected,
        contestable,
    } = contest;
    let difference = declared.abs_diff(expected);
    print!(rt;
        "month {}: declared {}, ours {}, difference {} ",
        month.number(),
        Hundredths(declared),
        Hundredths(expected),
        Hundredths(difference)
    )?;
    match difference.saturating_mul(10_000).checked_div(declared) {
        Some(share) => print!(rt; "({} per cent): ", Hundredths(share))?,
        None => print!(rt; "(no share of 0,00): ")?,
    }
    println!(rt;
        "{}",
        if contestable {
            "contestable"
        } else {
            "not contestable"
        }
    )?;
    Ok(())
}

fn count(verdicts: &[u8], verdict: Verdict) -> usize {
    verdicts
        .iter()
        .filter(|byte| **byte == verdict.code())
        .count()
}

fn print_summary(
    rt: &HostRuntime,
    verdicts: &[u8],
    months: [Option<MonthContest>; 3],
) -> anyhow::Result<()> {
    let lines = verdicts.len();
    let right = count(verdicts, Verdict::Right);
    let month = count(verdicts, Verdict::Month);
    let tariff = count(verdicts, Verdict::Tariff);
    let net = count(verdicts, Verdict::Net);
    let tax = count(verdicts, Verdict::Tax);
    let all = months.iter().flatten().count();
    let contestable = months
        .iter()
        .flatten()
        .filter(|month| month.contestable)
        .count();
    print!(rt; "summary lines={lines} right={right} month={month} ")?;
    print!(rt; "tariff={tariff} net={net} tax={tax} ")?;
    println!(rt; "months={all} contestable={contestable}")?;
    Ok(())
}

// Why the contest of a file of these bytes is refused.
#[derive(Clone, Copy)]
struct ContestRefusal<'a> {
    bytes: &'a [u8],
    fault: ContestFault,
}

impl fmt::Display for ContestRefusal<'_> {
    fn fmt<W: fmt::Write>(&self, f: &mut fmt::Formatter<W>) -> fmt::Result {
        let why = match self.fault {
            ContestFault::Read(fault) => {
                return write!(
                    f,
                    "{}",
                    Refusal {
                        bytes: self.bytes,
                        fault
                    }
                );
            }
            ContestFault::Unlike =>
                "the declared file has other parties or another reference month",
            ContestFault::Short => "no room for the verdicts",
        };
        write!(f, "refused: {} ({why})", self.fault.number())
    }
}

// The file once contested, and how many verdicts stand in the buffer.
fn judged<'a, L: RowStore<Row = LineRow>, D: RowStore<Row = DayRow>>(
    statement: &Statement<L, D>,
    book: &FileBook,
    bytes: &'a [u8],
    verdicts: &mut [u8],
) -> Result<(Declared<'a>, usize), ContestFault> {
    let count = contest(statement, book, bytes, verdicts)?;
    Ok((file::read(bytes)?, count))
}

fn print_report<L: RowStore<Row = LineRow>, D: RowStore<Row = DayRow>>(
    rt: &HostRuntime,
    statement: &mut Statement<L, D>,
    book: &FileBook,
    file: Declared<'_>,
    verdicts: &[u8],
) -> anyhow::Result<()> {
    let Head {
        creditor,
        debtor,
        reference,
    } = file.head();
    println!(rt; "creditor {creditor:03}, debtor {debtor:03}, reference month {reference}")?;
    print_lines(rt, statement.basis(), book, file)?;
    let months = BACK.map(|back| contest_month(statement, file, back));
    for month in months.iter().flatten() {
        print_month(rt, *month)?;
    }
    print_summary(rt, verdicts, months)
}

pub fn report<L: RowStore<Row = LineRow>, D: RowStore<Row = DayRow>>(
    rt: &HostRuntime,
    statement: &mut Statement<L, D>,
    book: &FileBook,
    bytes: &[u8],
) -> anyhow::Result<ExitCode> {
    let mut verdicts = vec![in rt.alloc(); 0u8; bytes.len() / LINE_WIDTH]?;
    match judged(statement, book, bytes, &mut verdicts) {
        Ok((file, count)) => {
            let verdicts = verdicts.get(..count).unwrap_or_default();
            print_report(rt, statement, book, file, verdicts)?;
            Ok(ExitCode::SUCCESS)
        }
        Err(fault) => {
            // printed here, since an error keeps 120 bytes of its text
            let refusal = ContestRefusal { bytes, fault };
            eprintln!(rt; "contest: {refusal}")?;
            Ok(ExitCode::FAILURE)
        }
    }
}
