// All that a statement keeps, as text: the file, the lines, the days and the refusals.
ghost use Rattle.std.specs.Prelude.{◌≡◌};

use anyhow::anyhow;
use ledger::day::DayRow;
use ledger::line::LineRow;
use ledger::store::RowStore;
use piles::rows::list_rows;
use settlement::refusals::refusal_lines;
use statement::statement::Statement;
use std::io::Write;

// Bytes of the longest file, and more rows than any store here holds.
const FILE: usize = 2_000;

const ROWS: usize = 100;

fn add_file<L: RowStore<Row = LineRow>, D: RowStore<Row = DayRow>>(
    rt: &HostRuntime,
    statement: &mut Statement<L, D>,
    text: &mut Vec<u8>,
) -> anyhow::Result<()>
    ensures { statement.new ≡ statement.old }
{
    let mut file = vec![in rt.alloc(); 0u8; FILE]?;
    let length = statement
        .write_file(&mut file)
        .map_err(|_| anyhow!("the file does not fit"))?;
    file.truncate(length);
    text.extend_from_slice(&file)?;
    Ok(())
}

fn add_lines<L: RowStore<Row = LineRow>, D: RowStore<Row = DayRow>>(
    rt: &HostRuntime,
    statement: &mut Statement<L, D>,
    text: &mut Vec<u8>,
) -> anyhow::Result<()>
    ensures { statement.new ≡ statement.old }
{
    let rows: Vec<LineRow> = list_rows(
        rt.alloc(),
        statement,
        ROWS,
        |from, after| from.next_line(after),
    )?;
    for row in rows.iter() {
        let month = row.key.month.number();
        let point = row.key.point.number();
        let descriptor = row.key.descriptor.number();
        let tariff = row.key.tariff.number();
        let calls = row.traffic.calls();
        let tenths = row.traffic.tenths();
        let line = format!(in rt.alloc();
            "line {month} {point} {descriptor} {tariff}: {calls} calls, {tenths} tenths\n"
        )?;
        text.extend_from_slice(line.as_bytes())?;
    }
    Ok(())
}

fn add_days<L: RowStore<Row = LineRow>, D: RowStore<Row = DayRow>>(
    rt: &HostRuntime,
    statement: &mut Statement<L, D>,
    text: &mut Vec<u8>,
) -> anyhow::Result<()>
    ensures { statement.new ≡ statement.old }
{
    let rows: Vec<DayRow> = list_rows(
        rt.alloc(),
        statement,
        ROWS,
        |from, after| from.next_day(after),
    )?;
    for row in rows.iter() {
        let day = row.key.day.number();
        let point = row.key.point.number();
        let calls = row.traffic.calls();
        let tenths = row.traffic.tenths();
        let earliest = row.earliest.number();
        let latest = row.latest.number();
        let line = format!(in rt.alloc();
            "day {day} {point}: {calls} calls, {tenths} tenths, {earliest} to {latest}\n"
        )?;
        text.extend_from_slice(line.as_bytes())?;
    }
    Ok(())
}

pub fn summary<L: RowStore<Row = LineRow>, D: RowStore<Row = DayRow>>(
    rt: &HostRuntime,
    statement: &mut Statement<L, D>,
) -> anyhow::Result<Vec<u8>> {
    let mut text = Vec::new(rt.alloc());
    add_file(rt, statement, &mut text)?;
    add_lines(rt, statement, &mut text)?;
    add_days(rt, statement, &mut text)?;
    let refusals = refusal_lines(rt.alloc(), &statement.board())?;
    text.extend_from_slice(&refusals)?;
    let taken = statement.taken();
    let line = format!(in rt.alloc(); "{taken} records taken\n")?;
    text.extend_from_slice(line.as_bytes())?;
    Ok(text)
}

pub fn print(rt: &HostRuntime, text: &[u8]) -> anyhow::Result<()> {
    rt.stdout().write_all(text)?;
    Ok(())
}
