// Descriptors: five bytes, blanks and then one to four capitals or digits.
ghost use Rattle.std.specs.Prelude.{◌≡◌, length};
ghost use Rattle.digits.specs.Positional.{bytes_of};
ghost use Rattle.values.specs.Labels.{is_descriptor};
ghost use Rattle.values.specs.Values.{descriptor_of, descriptor_in};

use super::Descriptor;
use crate::text::{Kind, is_two_parts};
use digits::{read_be, write_be};

fn is_descriptor(bytes: &[u8]) -> bool
    ensures { result ≡ is_descriptor bytes.now }
{
    bytes.len() == 5
        && Kind::Blank.has(bytes[0])
        && Kind::Code.has(bytes[4])
        && is_two_parts(bytes, Kind::Blank, Kind::Code)
}

impl Descriptor {
    // The descriptor with this number, if there is one.
    pub fn new(number: u64) -> Option<Descriptor>
        ensures { result ≡ descriptor_of number }
    {
        let mut bytes = [0u8; 5];
        write_be(&mut bytes, number as u128);
        if number < (1 << 40) && is_descriptor(&bytes) {
            Some(Descriptor { number })
        } else {
            None
        }
    }

    // The descriptor that the five bytes name, if they name one.
    pub fn read(bytes: &[u8]) -> Option<Descriptor>
        ensures { result ≡ descriptor_in bytes.now }
    {
        if !is_descriptor(bytes) {
            return None;
        }
        let number = read_be(bytes)? as u64;
        Some(Descriptor { number })
    }

    pub fn number(self) -> u64
        ensures { result ≡ self.number }
    {
        self.number
    }

    // The five bytes that name the descriptor.
    pub fn bytes(self) -> [u8; 5]
        ensures { result ≡ bytes_of 5 self.number }
    {
        let mut bytes = [0u8; 5];
        write_be(&mut bytes, self.number as u128);
        bytes
    }
}
