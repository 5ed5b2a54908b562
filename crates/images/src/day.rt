// Days in an image.
ghost use Rattle.std.specs.Prelude.{◌≡◌, length};
ghost use Rattle.images.specs.Fields.{day_width, day_fields_in, day_row_in, day_bytes};
ghost use Rattle.images.specs.ReadBack.{day_sized, day_row_read};
ghost use Rattle.std.proofs.Common.{rules};

use crate::fields::{read_traffic, write_number, write_text, write_traffic};
use crate::row::ImageRow;
use ledger::day::{DayKey, DayRow};
use values::calendar::{Day, TimeOfDay};
use values::decimal::Decimal;
use values::labels::Point;

const DAY_WIDTH: usize = 55;

fn read_fields(bytes: &[u8; DAY_WIDTH]) -> Option<DayRow>
    ensures { result ≡ day_fields_in bytes.now }
{
    let day = Day::read(&bytes[0..8])?;
    let point = Point::read(&bytes[8..18])?;
    let traffic = read_traffic(&bytes[18..43])?;
    let earliest = TimeOfDay::read(&bytes[43..49])?;
    let latest = TimeOfDay::read(&bytes[49..55])?;
    let key = DayKey { day, point };
    Some(DayRow {
        key,
        traffic,
        earliest,
        latest,
    })
}

fn write_fields(row: DayRow, out: &mut [u8])
    requires { length out.old ≡ day_width }
    ensures { out.new ≡ day_bytes row }
{
    write_number(out, 0, 8, row.key.day.number() as u64);
    write_text(out, 8, 10, row.key.point.number());
    write_traffic(out, 18, row.traffic);
    write_number(out, 43, 6, row.earliest.number() as u64);
    write_number(out, 49, 6, row.latest.number() as u64);
}

impl ImageRow for DayRow {
    const WIDTH: usize = DAY_WIDTH;

    ghost WIDTH = { day_width };

    ghost row_in = { day_row_in };

    ghost bytes_of = { day_bytes };

    ghost wide = { Prim.search rules };

    ghost sized = { day_sized };

    ghost read = { day_row_read };

    #[tactic(auto, unfolding(crate::specs::Fields::day_row_in))]
    fn read_row(bytes: &[u8]) -> Option<DayRow> {
        let Ok(row) = <&[u8; DAY_WIDTH]>::try_from(bytes) else {
            return None;
        };
        read_fields(row)
    }

    fn write_row(self, out: &mut [u8]) {
        if out.len() == DAY_WIDTH {
            write_fields(self, out);
        }
    }
}
