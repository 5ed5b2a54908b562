// Why bytes are no image.
ghost use Rattle.std.specs.Prelude.{◌≡◌};
ghost use Rattle.images.specs.Faults.{refusal};

#[derive(Clone, Copy, PartialEq, Eq, Debug)]
pub enum ImageFault {
    // The bytes are too few, or the count is bad.
    Count,
    // The first row at fault, counted from 1.
    Row(usize),
}

impl ImageFault {
    pub fn number(self) -> u8
        ensures { result ≡ (refusal self).number }
    {
        26
    }

    // The row at fault, 0 where it is the count.
    pub fn row(self) -> usize
        ensures { result ≡ (refusal self).row }
    {
        match self {
            ImageFault::Count => 0,
            ImageFault::Row(row) => row,
        }
    }
}
