// The input of a settlement: the reference month and the records on standard input.
ghost use Rattle.std.specs.Prelude.{◌≡◌, ◌≤◌, length, IfOk};

use anyhow::anyhow;
use ledger::day::DayRow;
use ledger::line::LineRow;
use ledger::store::RowStore;
use rating::book::TariffBook;
use settlement::month::{MONTH_LINE, read_month};
use settlement::settlement::Settlement;
use std::io::Read;
use values::calendar::Month;

// Bytes of input read at a time.
const PIECE: usize = 65_536;

// Fills the buffer from standard input, as far as the input goes, and answers how many bytes came.
fn fill(rt: &HostRuntime, buffer: &mut [u8]) -> anyhow::Result<usize>
    ensures { IfOk result (λ n. n ≤ length buffer.old) }
{
    let mut input = rt.stdin();
    let mut filled = 0;
    // Each read before the end of the input brings a byte or more.
    for _ in 0..buffer.len() {
        filled += input.read(&mut buffer[filled..])?;
    }
    Ok(filled)
}

// The reference month of the input's first line.
pub fn read_reference(rt: &HostRuntime) -> anyhow::Result<Month> {
    let mut line = [0u8; MONTH_LINE];
    let filled = fill(rt, &mut line)?;
    read_month(&line[0..filled]).ok_or_else(|| {
        anyhow!("reference month refused: the first line is not AAAAMM from 200001 to 209912")
    })
}

// Feeds the rest of the input, a piece at a time.
pub fn feed_all<L: RowStore<Row = LineRow>, D: RowStore<Row = DayRow>, B: TariffBook + Drop>(
    rt: &HostRuntime,
    settlement: &mut Settlement<L, D, B>,
) -> anyhow::Result<()> {
    let mut input = rt.stdin();
    let mut piece = vec![in rt.alloc(); 0u8; PIECE]?;
    // A count that no input reaches: a loop that may never end needs a permission that the gate does not give.
    for _ in 0..u64::MAX {
        let n = input.read(&mut piece)?;
        if n == 0 {
            break;
        }
        settlement.feed(&piece[0..n]);
    }
    Ok(())
}
