// Opens an image, prints its rows in key order, puts rows into it and clears it, and prints the bytes after that.
ghost use Rattle.std.specs.Prelude.{◌≡◌};
ghost use Rattle.ledger.specs.Ledger.{Kept};

use crate::text::Text;
use images::format::check;
use images::row::ImageRow;
use imagestore::image::ImageStore;
use ledger::day::DayRow;
use ledger::line::LineRow;
use ledger::row::Row;
use ledger::store::{RowStore, Size};

// More rows than any image here holds.
const ROWS: usize = 100;

// The digits of the count.
const COUNT: usize = 7;

// A row that images are tried with.
pub trait TriedRow: ImageRow {
    // Put into each image one after the other: a key that it may hold, one that it has not, and one at the limits.
    const PUT: [&'static [u8]; 3];

    fn print(&self, rt: &HostRuntime) -> anyhow::Result<()>;
}

impl TriedRow for LineRow {
    const PUT: [&'static [u8]; 3] = [
        b"202403SPO01      LOCN00000000000100000000000050050000",
        b"202403SPO01      LOCN00000000000100000000000050060000",
        b"202403RJO02        N100000000000100000000000019999999",
    ];

    fn print(&self, rt: &HostRuntime) -> anyhow::Result<()> {
        let month = self.key.month.number();
        let point = Text {
            bytes: &self.key.point.bytes(),
        };
        let descriptor = Text {
            bytes: &self.key.descriptor.bytes(),
        };
        let calls = self.traffic.calls();
        let tenths = self.traffic.tenths();
        let tariff = self.key.tariff.number();
        print!(rt; " {month}/{point}/{descriptor}/{calls}/{tenths}/{tariff}")?;
        Ok(())
    }
}

impl TriedRow for DayRow {
    const PUT: [&'static [u8]; 3] = [
        b"20240310SPO01     0000000000010000000000005090000090000",
        b"20240311SPO01     0000000000010000000000005090000090000",
        b"20991231RJO02     0000000000010000000000001120000120000",
    ];

    fn print(&self, rt: &HostRuntime) -> anyhow::Result<()> {
        let day = self.key.day.number();
        let point = Text {
            bytes: &self.key.point.bytes(),
        };
        let calls = self.traffic.calls();
        let tenths = self.traffic.tenths();
        let earliest = self.earliest.number();
        let latest = self.latest.number();
        print!(rt; " {day}/{point}/{calls}/{tenths}/{earliest}/{latest}")?;
        Ok(())
    }
}

fn print_rows<S: RowStore>(rt: &HostRuntime, store: &mut S) -> anyhow::Result<()>
where
    S::Row: TriedRow,
    requires { Kept S.Row.Row.keys (S.RowStore.ledger store.old) (S.RowStore.kept store.old) }
    ensures { store.new ≡ store.old }
{
    let Size { rows, most } = store.size();
    print!(rt; "{rows} of {most}")?;
    let mut key = None;
    for _ in 0..ROWS {
        let Some(row) = store.next(&key) else {
            break;
        };
        row.print(rt)?;
        key = Some(row.key());
    }
    println!(rt)?;
    Ok(())
}

// Reads the rows of this type and puts them.
fn put_rows<S: RowStore>(rt: &HostRuntime, store: &mut S) -> anyhow::Result<()>
where
    S::Row: TriedRow,
    requires { Kept S.Row.Row.keys (S.RowStore.ledger store.old) (S.RowStore.kept store.old) }
    ensures { Kept S.Row.Row.keys (S.RowStore.ledger store.new) (S.RowStore.kept store.new) }
{
    // Not by `filter_map(read_row)`: the borrow checker does not cover a type parameter's method there.
    for text in <S::Row as TriedRow>::PUT {
        if let Some(row) = <S::Row as ImageRow>::read_row(text) {
            match store.put(row) {
                Ok(()) => println!(rt; "put")?,
                Err(_) => println!(rt; "full")?,
            }
        }
    }
    Ok(())
}

fn print_bytes(rt: &HostRuntime, bytes: &[u8]) -> anyhow::Result<()> {
    println!(rt; "{}", hex::encode(rt.alloc(), bytes)?)?;
    Ok(())
}

pub fn open<R: TriedRow>(rt: &HostRuntime, bytes: &mut [u8]) -> anyhow::Result<()> {
    if let Err(fault) = check::<R>(bytes) {
        println!(rt; "refused {}, row {}", fault.number(), fault.row())?;
        return Ok(());
    }
    let mut image = ImageStore::<R>::open(bytes);
    print_rows(rt, &mut image)?;
    put_rows(rt, &mut image)?;
    print_bytes(rt, bytes)?;
    ImageStore::<R>::open(bytes).clear();
    print_bytes(rt, bytes.get(0..COUNT).unwrap_or(&[]))
}
