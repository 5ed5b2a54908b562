// The line: the traffic of one month, point, descriptor and tariff.
ghost use Rattle.std.specs.Prelude.{◌≡◌, [], ◌∷◌};
ghost use Rattle.ledger.specs.Rows.{line_figures, line_keys, join_lines, line_of, line_cell, line_cell_order};
ghost use Rattle.ledger.specs.RowLaws.{line_order, line_joins, line_back, line_ranked};

use crate::row::{Row, TableRow};
use crate::traffic::Traffic;
use std::cmp::Ordering;
use values::calendar::Month;
use values::labels::{Descriptor, Point};
use values::rates::Tariff;

// Keys are ordered by month, then by point, descriptor and tariff.
#[derive(Clone, Copy, PartialEq, Eq, PartialOrd, Ord)]
pub struct LineKey {
    pub month: Month,
    pub point: Point,
    pub descriptor: Descriptor,
    pub tariff: Tariff,
}

#[derive(Clone, Copy, PartialEq, Eq)]
pub struct LineRow {
    pub key: LineKey,
    pub traffic: Traffic,
}

// A line as plain numbers.
#[derive(Clone, Copy, PartialEq, Eq, Default)]
pub struct LineCell {
    pub month: u32,
    pub point: u128,
    pub descriptor: u64,
    pub tariff: u32,
    pub calls: u64,
    pub tenths: u64,
}

impl LineKey {
    fn figures(&self) -> (u32, u128, u64, u32)
        ensures { result.0 ∷ (result.1 ∷ (result.2 ∷ (result.3 ∷ []))) ≡ line_figures self.now }
    {
        let month = self.month.number();
        let point = self.point.number();
        let descriptor = self.descriptor.number();
        let tariff = self.tariff.number();
        (month, point, descriptor, tariff)
    }
}

impl Row for LineRow {
    type Key = LineKey;

    ghost keys = { line_keys };

    ghost joined = { join_lines };

    ghost ordered = { line_order };

    ghost joins = { line_joins };

    fn key(&self) -> LineKey {
        self.key
    }

    fn compare(a: &LineKey, b: &LineKey) -> Ordering {
        a.cmp(b)
    }

    fn join(self, other: LineRow) -> LineRow {
        LineRow {
            key: self.key,
            traffic: self.traffic.plus(other.traffic),
        }
    }
}

impl TableRow for LineRow {
    type Cell = LineCell;

    ghost row_of = { line_of };

    ghost cell_of = { line_cell };

    ghost cell_order = { line_cell_order };

    ghost read = { line_back };

    ghost ranked = { line_ranked };

    fn from_cell(cell: LineCell) -> Option<LineRow> {
        let month = Month::new(cell.month)?;
        let point = Point::new(cell.point)?;
        let descriptor = Descriptor::new(cell.descriptor)?;
        let tariff = Tariff::new(cell.tariff)?;
        let traffic = Traffic::new(cell.calls, cell.tenths)?;
        let key = LineKey {
            month,
            point,
            descriptor,
            tariff,
        };
        Some(LineRow { key, traffic })
    }

    fn to_cell(self) -> LineCell {
        LineCell {
            month: self.key.month.number(),
            point: self.key.point.number(),
            descriptor: self.key.descriptor.number(),
            tariff: self.key.tariff.number(),
            calls: self.traffic.calls(),
            tenths: self.traffic.tenths(),
        }
    }

    fn compare_cell(cell: &LineCell, key: &LineKey) -> Ordering {
        (cell.month, cell.point, cell.descriptor, cell.tariff).cmp(&key.figures())
    }
}
