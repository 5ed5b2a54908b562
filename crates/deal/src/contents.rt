// What a statement keeps, and what differs first between two, in the order file, lines, days, refusals, records taken.
ghost use Rattle.std.specs.Prelude.{◌≡◌};

use account::declare;
use anyhow::anyhow;
use ledger::day::DayRow;
use ledger::line::LineRow;
use ledger::store::RowStore;
use piles::rows::list_rows;
use statement::board::RefusalBoard;
use statement::faults::StoreFault;
use statement::statement::Statement;

// Bytes of the longest file, and more rows than a store here holds.
const FILE: usize = 64_629;

const ROWS: usize = 1_000;

#[derive(Drop)]
pub struct Contents {
    file: Vec<u8>,
    lines: Vec<LineRow>,
    days: Vec<DayRow>,
    board: RefusalBoard,
    taken: u32,
}

// The bytes of the file.
fn file_of<L: RowStore<Row = LineRow>, D: RowStore<Row = DayRow>>(
    rt: &HostRuntime,
    statement: &mut Statement<L, D>,
) -> anyhow::Result<Vec<u8>>
    ensures { statement.new ≡ statement.old }
{
    let mut file = vec![in rt.alloc(); 0u8; FILE]?;
    let length = declare(statement, &mut file).map_err(|_| anyhow!("the file does not fit"))?;
    file.truncate(length);
    Ok(file)
}

impl Contents {
    pub fn of<L: RowStore<Row = LineRow>, D: RowStore<Row = DayRow>>(
        rt: &HostRuntime,
        statement: &mut Statement<L, D>,
    ) -> anyhow::Result<Contents>
        ensures { statement.new ≡ statement.old }
    {
        let alloc = rt.alloc();
        Ok(Contents {
            file: file_of(rt, statement)?,
            lines: list_rows(alloc, statement, ROWS, |from, after| from.next_line(after))?,
            days: list_rows(alloc, statement, ROWS, |from, after| from.next_day(after))?,
            board: statement.board(),
            taken: statement.taken(),
        })
    }

    // How many records were taken.
    pub fn taken(&self) -> u32 {
        self.taken
    }

    // Whether a store had no room for some record.
    pub fn refused_for_space(&self) -> bool {
        [StoreFault::LinesFull, StoreFault::DaysFull]
            .iter()
            .filter_map(|fault| self.board.tally(fault.number()))
            .any(|tally| tally.count > 0)
    }

    // In words, or none where nothing differs.
    pub fn first_difference(&self, other: &Contents) -> Option<&'static str> {
        if self.file != other.file {
            Some("the files differ")
        } else if self.lines != other.lines {
            Some("the lines differ")
        } else if self.days != other.days {
            Some("the days differ")
        } else if self.board != other.board {
            Some("the refusals differ")
        } else if self.taken != other.taken {
            Some("the numbers of records taken differ")
        } else {
            None
        }
    }
}
