// The first line of the input: the reference month.
ghost use Rattle.std.specs.Prelude.{◌≡◌};
ghost use Rattle.settlement.specs.Settling.{month_line};

use values::calendar::Month;
use values::decimal::Decimal;

// The bytes of the line: six digits and 0A hex.
pub const MONTH_LINE: usize = 7;

// The month of the line, or none where the bytes are no such line.
pub fn read_month(bytes: &[u8]) -> Option<Month>
    ensures { result ≡ month_line bytes.now }
{
    bytes.strip_suffix(b"\n").and_then(Month::read)
}
