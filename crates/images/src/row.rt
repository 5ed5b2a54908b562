// A row that an image keeps as bytes. Lines and days have other fields in other columns, so each reads and writes its own.
ghost use Rattle.std.specs.Prelude.{◌≡◌, ℕ, ◌<◌, List, length, if◌then◌else◌, Some, Option, nat_eq};

use ledger::row::Row;

pub trait ImageRow: Row {
    // The bytes of a row.
    const WIDTH: usize;

    ghost WIDTH: { ℕ };

    // The row that bytes hold, if they are well formed.
    ghost row_in: { List ℕ → Option Self };

    ghost bytes_of: { Self → List ℕ };

    fn read_row(bytes: &[u8]) -> Option<Self>
        ensures { result ≡ row_in bytes.now };

    // Fills a buffer that is as wide as a row. Any other stays as it was.
    fn write_row(self, out: &mut [u8])
        ensures { out.new ≡ (if nat_eq (length out.old) WIDTH then bytes_of self else out.old) };

    ghost wide: { 0 < WIDTH };

    ghost sized: { (cs : List ℕ) (r : Self) → row_in cs ≡ Some r → length cs ≡ WIDTH };

    // A row is read back from its own bytes.
    ghost read: { (r : Self) → row_in (bytes_of r) ≡ Some r };
}
