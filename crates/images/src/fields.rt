// Fields that rows of several types have, read, and written from a place on.
ghost use Rattle.std.specs.Prelude.{◌≡◌, ◌+◌, ◌≤◌, length};
ghost use Rattle.digits.specs.Positional.{write_decimal, bytes_of};
ghost use Rattle.images.specs.Fields.{written, traffic_in, traffic_bytes};

use digits::{read_decimal, write_be, write_decimal};
use ledger::traffic::Traffic;

pub fn write_number(out: &mut [u8], at: usize, width: usize, n: u64)
    requires { at + width ≤ length out.old }
    ensures { out.new ≡ written at (write_decimal width n) out.old }
{
    write_decimal(&mut out[at..at + width], n);
}

// A text by the number of its bytes.
pub fn write_text(out: &mut [u8], at: usize, width: usize, n: u128)
    requires { at + width ≤ length out.old }
    ensures { out.new ≡ written at (bytes_of width n) out.old }
{
    write_be(&mut out[at..at + width], n);
}

// Calls and tenths.
pub fn write_traffic(out: &mut [u8], at: usize, traffic: Traffic)
    requires { at + 25 ≤ length out.old }
    ensures { out.new ≡ written at (traffic_bytes traffic) out.old }
{
    write_number(out, at, 12, traffic.calls());
    write_number(out, at + 12, 13, traffic.tenths());
}

pub fn read_traffic(bytes: &[u8]) -> Option<Traffic>
    requires { length bytes.now ≡ 25 }
    ensures { result ≡ traffic_in bytes.now }
{
    let calls = read_decimal(&bytes[0..12], 12)?;
    let tenths = read_decimal(&bytes[12..25], 13)?;
    Traffic::new(calls, tenths)
}
