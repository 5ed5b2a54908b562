// Reads a DETRAF file, the one that its argument names or standard input, and prints it for a person to read, or says
// why it is refused.
#![tactic(auto)]

mod amounts;

use amounts::{print_amounts, print_rate};
use anyhow::anyhow;
use declared::file;
use declared::file::Declared;
use declared::lines::{DeclaredLine, DetailLine, Head, TotalLine};
use desk::files::read_named;
use desk::refusals::Refusal;
use std::io::Read;
use std::process::ExitCode;
use std::{env, str};

// The bytes of the file named, or else of standard input; none where the file cannot be read, which is then said.
fn read_input(rt: &HostRuntime) -> anyhow::Result<Option<Vec<u8>>> {
    let mut words = env::args(rt)?.skip(1);
    match (words.next(), words.next()) {
        (None, _) => {
            let mut bytes = Vec::new(rt.alloc());
            rt.stdin().read_to_end(&mut bytes)?;
            Ok(Some(bytes))
        }
        (Some(name), None) => read_named(rt, "inspect", &name),
        _ => Err(anyhow!("usage: inspect [FILE]")),
    }
}

fn print_detail(rt: &HostRuntime, number: usize, line: DetailLine<'_>) -> anyhow::Result<()> {
    let DetailLine {
        month,
        point,
        descriptor,
        calls,
        tenths,
        tariff,
        amounts,
    } = line;
    let point = str::from_utf8(point)?;
    let descriptor = str::from_utf8(descriptor)?;
    print!(rt; "{number:>6}  {month}  {point}  {descriptor}  {calls:>12} {tenths:>13}  ")?;
    print_rate(rt, tariff)?;
    print_amounts(rt, amounts)
}

fn print_total(rt: &HostRuntime, line: TotalLine) -> anyhow::Result<()> {
    let TotalLine {
        calls,
        tenths,
        amounts,
    } = line;
    print!(rt; " total                             {calls:>12} {tenths:>13}          ")?;
    print_amounts(rt, amounts)
}

fn print_file(rt: &HostRuntime, file: Declared<'_>) -> anyhow::Result<()> {
    let Head {
        creditor,
        debtor,
        reference,
    } = file.head();
    let count = file.detail_count();
    println!(rt;
        "creditor {creditor:03}, debtor {debtor:03}, reference month {reference}, {count} detail lines"
    )?;
    println!(rt;
        "  line  month   point       descr         calls        tenths    tariff                net         PIS/COFINS               ICMS              gross"
    )?;
    for (i, line) in file.details().enumerate() {
        print_detail(rt, i + 1, line)?;
    }
    if let Some(DeclaredLine::Total(total)) = file.line(count) {
        print_total(rt, total)?;
    }
    Ok(())
}

fn inspect(rt: &HostRuntime) -> anyhow::Result<ExitCode> {
    let Some(bytes) = read_input(rt)? else {
        return Ok(ExitCode::FAILURE);
    };
    match file::read(&bytes) {
        Ok(file) => {
            print_file(rt, file)?;
            Ok(ExitCode::SUCCESS)
        }
        Err(fault) => {
            // printed here, since an error keeps 120 bytes of its text
            let refusal = Refusal {
                bytes: &bytes,
                fault,
            };
            eprintln!(rt; "inspect: {refusal}")?;
            Ok(ExitCode::FAILURE)
        }
    }
}

fn main(rt: HostRuntime) -> ExitCode {
    match inspect(&rt) {
        Ok(code) => code,
        Err(why) => {
            let _ = eprintln!(rt; "inspect: {why}");
            ExitCode::FAILURE
        }
    }
}
