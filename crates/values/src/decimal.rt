// Values that decimal digits write.
ghost use Rattle.std.specs.Prelude.{◌≡◌, ℕ, ◌≤◌, Option};
ghost use Rattle.values.specs.Checked.{numbered};

use digits::read_decimal;

// A value that is written in so many digits, leading zeros included.
pub trait Decimal: Copy {
    const WIDTH: usize;

    ghost WIDTH: { ℕ };

    // the value with a number, if there is one
    ghost of: { ℕ → Option Self };

    fn from_number(number: u32) -> Option<Self>
        ensures { result ≡ of number };

    // The value that exactly so many digits write.
    final fn read(bytes: &[u8]) -> Option<Self>
        ensures { result ≡ numbered WIDTH of bytes.now }
    {
        Self::from_number(read_decimal(bytes, Self::WIDTH)? as u32)
    }

    // The number of as many digits fits 32 bits.
    ghost narrow: { WIDTH ≤ 9 };
}
