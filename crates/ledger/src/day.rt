// The day: the traffic of one day and point, and its earliest and latest start.
ghost use Rattle.std.specs.Prelude.{◌≡◌, [], ◌∷◌};
ghost use Rattle.ledger.specs.Rows.{day_figures, day_keys, join_days, day_row_of, day_cell, day_cell_order};
ghost use Rattle.ledger.specs.RowLaws.{day_order, day_joins, day_row_back, day_ranked};

use crate::row::{Row, TableRow};
use crate::traffic::Traffic;
use std::cmp::Ordering;
use values::calendar::{Day, TimeOfDay};
use values::labels::Point;

// Keys are ordered by day, then by point.
#[derive(Clone, Copy, PartialEq, Eq, PartialOrd, Ord)]
pub struct DayKey {
    pub day: Day,
    pub point: Point,
}

#[derive(Clone, Copy, PartialEq, Eq)]
pub struct DayRow {
    pub key: DayKey,
    pub traffic: Traffic,
    pub earliest: TimeOfDay,
    pub latest: TimeOfDay,
}

// A day as plain numbers.
#[derive(Clone, Copy, PartialEq, Eq, Default)]
pub struct DayCell {
    pub day: u32,
    pub point: u128,
    pub calls: u64,
    pub tenths: u64,
    pub earliest: u32,
    pub latest: u32,
}

impl DayKey {
    fn figures(&self) -> (u32, u128)
        ensures { result.0 ∷ (result.1 ∷ []) ≡ day_figures self.now }
    {
        (self.day.number(), self.point.number())
    }
}

impl Row for DayRow {
    type Key = DayKey;

    ghost keys = { day_keys };

    ghost joined = { join_days };

    ghost ordered = { day_order };

    ghost joins = { day_joins };

    fn key(&self) -> DayKey {
        self.key
    }

    fn compare(a: &DayKey, b: &DayKey) -> Ordering {
        a.cmp(b)
    }

    fn join(self, other: DayRow) -> DayRow {
        DayRow {
            key: self.key,
            traffic: self.traffic.plus(other.traffic),
            earliest: self.earliest.earlier(other.earliest),
            latest: self.latest.later(other.latest),
        }
    }
}

impl TableRow for DayRow {
    type Cell = DayCell;

    ghost row_of = { day_row_of };

    ghost cell_of = { day_cell };

    ghost cell_order = { day_cell_order };

    ghost read = { day_row_back };

    ghost ranked = { day_ranked };

    fn from_cell(cell: DayCell) -> Option<DayRow> {
        let day = Day::new(cell.day)?;
        let point = Point::new(cell.point)?;
        let traffic = Traffic::new(cell.calls, cell.tenths)?;
        let earliest = TimeOfDay::new(cell.earliest)?;
        let latest = TimeOfDay::new(cell.latest)?;
        let key = DayKey { day, point };
        Some(DayRow {
            key,
            traffic,
            earliest,
            latest,
        })
    }

    fn to_cell(self) -> DayCell {
        DayCell {
            day: self.key.day.number(),
            point: self.key.point.number(),
            calls: self.traffic.calls(),
            tenths: self.traffic.tenths(),
            earliest: self.earliest.number(),
            latest: self.latest.number(),
        }
    }

    fn compare_cell(cell: &DayCell, key: &DayKey) -> Ordering {
        (cell.day, cell.point).cmp(&key.figures())
    }
}
