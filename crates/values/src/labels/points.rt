// Points: one to ten graphic bytes, then blanks up to ten.
ghost use Rattle.std.specs.Prelude.{◌≡◌, length};
ghost use Rattle.digits.specs.Positional.{bytes_of};
ghost use Rattle.values.specs.Labels.{is_point};
ghost use Rattle.values.specs.Values.{point_of, point_in};

use super::Point;
use crate::text::{Kind, is_two_parts};
use digits::{read_be, write_be};

fn is_point(bytes: &[u8]) -> bool
    ensures { result ≡ is_point bytes.now }
{
    bytes.len() == 10
        && Kind::Graphic.has(bytes[0])
        && is_two_parts(bytes, Kind::Graphic, Kind::Blank)
}

impl Point {
    // The point with this number, if there is one.
    pub fn new(number: u128) -> Option<Point>
        ensures { result ≡ point_of number }
    {
        let mut bytes = [0u8; 10];
        write_be(&mut bytes, number);
        if number < (1 << 80) && is_point(&bytes) {
            Some(Point { number })
        } else {
            None
        }
    }

    // The point that the ten bytes name, if they name one.
    pub fn read(bytes: &[u8]) -> Option<Point>
        ensures { result ≡ point_in bytes.now }
    {
        if !is_point(bytes) {
            return None;
        }
        let number = read_be(bytes)?;
        Some(Point { number })
    }

    pub fn number(self) -> u128
        ensures { result ≡ self.number }
    {
        self.number
    }

    // The ten bytes that name the point.
    pub fn bytes(self) -> [u8; 10]
        ensures { result ≡ bytes_of 10 self.number }
    {
        let mut bytes = [0u8; 10];
        write_be(&mut bytes, self.number);
        bytes
    }
}
