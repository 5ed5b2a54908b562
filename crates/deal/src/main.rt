// Settles the same records in order, reversed, and dealt out over two and over three units on different stores and
// joined, and says that all keep the same, or what differs first. Reads the file `agreement` in the current folder and,
// on standard input, the reference month and the records.
#![tactic(auto)]

mod contents;
mod dealing;

use agreement::book::FileBook;
use anyhow::anyhow;
use dealing::{Input, run};
use desk::agreements::{read_agreement, read_terms};
use settlement::month::{MONTH_LINE, read_month};
use std::io::Read;
use std::process::ExitCode;
use values::calendar::Month;
use values::terms::Basis;

// The reference month on the first line, and the bytes after it.
fn split_reference(text: &[u8]) -> anyhow::Result<(Month, &[u8])> {
    text.split_at_checked(MONTH_LINE)
        .and_then(|(line, rest)| Some((read_month(line)?, rest)))
        .ok_or_else(|| {
            anyhow!("reference month refused: the first line is not AAAAMM from 200001 to 209912")
        })
}

// Each record ends with 0A hex; an unended rest is a record too.
fn split_records<'a>(rt: &HostRuntime, text: &'a [u8]) -> anyhow::Result<Vec<&'a [u8]>> {
    let mut records: Vec<&[u8]> = text.split(|b| *b == b'\n').collect(rt.alloc())?;
    if records.last().is_some_and(|rest| rest.is_empty()) {
        records.pop();
    }
    Ok(records)
}

fn deal(rt: &HostRuntime) -> anyhow::Result<()> {
    let agreement = read_agreement(rt)?;
    let terms = read_terms(rt, &agreement)?;
    let mut text = Vec::new(rt.alloc());
    rt.stdin().read_to_end(&mut text)?;
    let (reference, rest) = split_reference(&text)?;
    let records = split_records(rt, rest)?;
    run(
        rt,
        Input {
            basis: Basis { terms, reference },
            book: FileBook::new(&agreement),
            records: &records,
        },
    )
}

fn main(rt: HostRuntime) -> ExitCode {
    match deal(&rt) {
        Ok(()) => ExitCode::SUCCESS,
        Err(why) => {
            let _ = eprintln!(rt; "deal: {why}");
            ExitCode::FAILURE
        }
    }
}
