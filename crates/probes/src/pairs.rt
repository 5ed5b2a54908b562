// Bytes written as pairs of hexadecimal digits.
ghost use Rattle.std.specs.Prelude.{◌≡◌, ◌≤◌, IfOk};
ghost use Rattle.probes.specs.Pairs.{digit_value, decoded};

use std::alloc::{AllocError, Global};

// The value of a digit, 0 to 9 and a to f; any other byte counts as 0.
fn digit_value(b: u8) -> u8
    ensures value { result ≡ digit_value b }
    ensures most { result ≤ 15 }
{
    match b {
        b'0'..=b'9' => b - b'0',
        b'a'..=b'f' => b - b'a' + 10,
        _ => 0,
    }
}

// The bytes that the pairs write. An odd last digit is passed over.
pub fn decode(heap: Global, text: &[u8]) -> Result<Vec<u8>, AllocError>
    ensures { IfOk result (λ bytes. bytes.items ≡ decoded text.now) }
{
    let (pairs, _) = text.as_chunks::<2>();
    pairs
        .iter()
        .map(|[high, low]| digit_value(*high) * 16 + digit_value(*low))
        .collect(heap)
}
