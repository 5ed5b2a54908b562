// Lines in an image.
ghost use Rattle.std.specs.Prelude.{◌≡◌, length};
ghost use Rattle.images.specs.Fields.{line_width, line_fields_in, line_in, line_bytes};
ghost use Rattle.images.specs.ReadBack.{line_sized, line_read};
ghost use Rattle.std.proofs.Common.{rules};

use crate::fields::{read_traffic, write_number, write_text, write_traffic};
use crate::row::ImageRow;
use ledger::line::{LineKey, LineRow};
use values::calendar::Month;
use values::decimal::Decimal;
use values::labels::{Descriptor, Point};
use values::rates::Tariff;

const LINE_WIDTH: usize = 53;

fn read_fields(bytes: &[u8; LINE_WIDTH]) -> Option<LineRow>
    ensures { result ≡ line_fields_in bytes.now }
{
    let month = Month::read(&bytes[0..6])?;
    let point = Point::read(&bytes[6..16])?;
    let descriptor = Descriptor::read(&bytes[16..21])?;
    let traffic = read_traffic(&bytes[21..46])?;
    let tariff = Tariff::read(&bytes[46..53])?;
    let key = LineKey {
        month,
        point,
        descriptor,
        tariff,
    };
    Some(LineRow { key, traffic })
}

fn write_fields(row: LineRow, out: &mut [u8])
    requires { length out.old ≡ line_width }
    ensures { out.new ≡ line_bytes row }
{
    write_number(out, 0, 6, row.key.month.number() as u64);
    write_text(out, 6, 10, row.key.point.number());
    write_text(out, 16, 5, row.key.descriptor.number() as u128);
    write_traffic(out, 21, row.traffic);
    write_number(out, 46, 7, row.key.tariff.number() as u64);
}

impl ImageRow for LineRow {
    const WIDTH: usize = LINE_WIDTH;

    ghost WIDTH = { line_width };

    ghost row_in = { line_in };

    ghost bytes_of = { line_bytes };

    ghost wide = { Prim.search rules };

    ghost sized = { line_sized };

    ghost read = { line_read };

    #[tactic(auto, unfolding(crate::specs::Fields::line_in))]
    fn read_row(bytes: &[u8]) -> Option<LineRow> {
        let Ok(row) = <&[u8; LINE_WIDTH]>::try_from(bytes) else {
            return None;
        };
        read_fields(row)
    }

    fn write_row(self, out: &mut [u8]) {
        if out.len() == LINE_WIDTH {
            write_fields(self, out);
        }
    }
}
