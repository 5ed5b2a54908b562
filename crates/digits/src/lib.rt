// Numbers of a fixed width: decimal digits, and big-endian bytes.
#![tactic(auto)]

ghost use Rattle.std.specs.Prelude.{◌≡◌, ◌+◌, ◌^◌, ◌<◌, ◌≤◌, length, IfSome};
ghost use Rattle.digits.specs.Positional.{numeral, read_decimal, places, write_decimal, big_endian, read_bytes, bytes_of, ReadsBack, WritesBack, KeepsOrder};

// The most digits whose numbers all fit 64 bits.
const MOST_DIGITS: usize = 19;

// The most bytes whose numbers all fit 128 bits.
const MOST_BYTES: usize = 16;

// The number that exactly so many digits write. None where there are more or fewer bytes, where a byte is no
// digit, and at a width above 19.
pub fn read_decimal(bytes: &[u8], width: usize) -> Option<u64>
    ensures value { result ≡ numeral width bytes.now }
    ensures fits { IfSome result (λ n. n < 10 ^ width) }
    ensures back { WritesBack }
{
    if bytes.len() != width || width > MOST_DIGITS {
        return None;
    }
    decimal_value(bytes)
}

// The number that the digits write, or none where a byte is no digit.
fn decimal_value(bytes: &[u8]) -> Option<u64>
    requires { length bytes.now ≤ 19 }
    ensures { result ≡ read_decimal bytes.now }
{
    let mut n: u64 = 0;
    for b in bytes {
        if *b < b'0' || *b > b'9' {
            return None;
        }
        n = n * 10 + (*b - b'0') as u64;
    }
    Some(n)
}

// Fills the buffer with the lowest digits of n, leading zeros included.
pub fn write_decimal(out: &mut [u8], n: u64)
    ensures after { out.new ≡ write_decimal (length out.old) n }
    ensures back { ReadsBack }
{
    write_places::<10, b'0'>(out, n as u128);
}

// The number of big-endian bytes, or none where there are more than sixteen.
pub fn read_be(bytes: &[u8]) -> Option<u128>
    ensures value { result ≡ read_bytes bytes.now }
    ensures order { KeepsOrder }
{
    if bytes.len() > MOST_BYTES {
        return None;
    }
    Some(bytes_value(bytes))
}

// The number of at most sixteen big-endian bytes.
fn bytes_value(bytes: &[u8]) -> u128
    requires { length bytes.now ≤ 16 }
    ensures { result ≡ big_endian bytes.now }
{
    let mut n: u128 = 0;
    for b in bytes {
        n = n * 256 + *b as u128;
    }
    n
}

// Fills the buffer with the lowest bytes of n, the highest first.
pub fn write_be(out: &mut [u8], n: u128)
    ensures { out.new ≡ bytes_of (length out.old) n }
{
    write_places::<256, 0>(out, n);
}

// Fills the buffer with the lowest places of n in a base whose symbols follow that of 0, the highest place first.
fn write_places<const BASE: u16, const ZERO: u8>(out: &mut [u8], n: u128)
    requires base { 0 < BASE }
    requires symbols { ZERO + BASE ≤ 256 }
    ensures { out.new ≡ places BASE ZERO (length out.old) n }
{
    let base = u128::from(BASE);
    if let Some((last, front)) = out.split_last_mut() {
        *last = ZERO + (n % base) as u8;
        write_places::<BASE, ZERO>(front, n / base);
    }
}
