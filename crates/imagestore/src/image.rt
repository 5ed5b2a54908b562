// The store of an image, for every row type that an image keeps.
ghost use Rattle.std.specs.Prelude.{◌≡◌, [], Ok, OnErr};
ghost use Rattle.ledger.specs.Ledger.{takes, placed, put_in, with_rows};
ghost use Rattle.images.specs.Format.{checked, blank_bytes};
ghost use Rattle.imagestore.specs.Cases.{LinesAsWorked, DaysAsWorked};
ghost use Rattle.imagestore.specs.Images.{image_ledger, Sound, KeptImage, image_in, put_bytes};

use crate::changes::{clear_rows, put_row};
use crate::scan::{find_row, next_row, size_of};
use images::format::check;
use images::row::ImageRow;
use ledger::day::DayRow;
use ledger::line::LineRow;
use ledger::store::{Full, RowStore, Size};
use std::marker::PhantomData;

// The rows stand in their order of arrival, so a find looks at one after the other.
#[derive(Drop)]
pub struct ImageStore<'a, R> {
    bytes: &'a mut [u8],
    row: PhantomData<R>,
}

pub type LineImage<'a> = ImageStore<'a, LineRow>;

pub type DayImage<'a> = ImageStore<'a, DayRow>;

impl<'a, R: ImageRow> ImageStore<'a, R> {
    // The store of an image, over its bytes as they are. Of bytes that the check refuses, a store that holds no row
    // and takes none.
    pub fn open(bytes: &'a mut [u8]) -> ImageStore<'a, R>
        ensures bytes { result.bytes.now ≡ image_in R.Row R.ImageRow.own bytes.old }
        ensures kept { KeptImage R.Row R.ImageRow.own result.bytes.now }
        ensures lender { checked R.Row R.ImageRow.own bytes.old ≡ Ok tt → result.bytes.ghost_name ≡ bytes.entry.ghost_name }
        ensures lines { LinesAsWorked }
        ensures days { DaysAsWorked }
    {
        match check::<R>(bytes) {
            Ok(()) => ImageStore {
                bytes,
                row: PhantomData,
            },
            Err(_) => ImageStore {
                bytes: &mut bytes[0..0],
                row: PhantomData,
            },
        }
    }
}

impl<'a, R: ImageRow> RowStore for ImageStore<'a, R> {
    type Row = R;

    ghost ledger = { λ s. image_ledger R.Row R.ImageRow.own s.bytes.now };

    ghost kept = { λ s. Sound R.Row R.ImageRow.own s.bytes.now };

    fn find(&mut self, key: R::Key) -> Option<R> {
        find_row::<R>(self.bytes, key)
    }

    fn next(&mut self, after: &Option<R::Key>) -> Option<R> {
        next_row::<R>(self.bytes, after)
    }

    fn size(&mut self) -> Size {
        size_of::<R>(self.bytes)
    }

    // With the bytes after it: the row of a held key is rewritten, a new row is appended and counted.
    fn put(&mut self, row: R) -> Result<(), Full<R>>
        requires { KeptImage R.Row R.ImageRow.own self.old.bytes.now }
        ensures answer { result ≡ placed row (takes R.Row.keys row (image_ledger R.Row R.ImageRow.own self.old.bytes.now)) }
        ensures after { image_ledger R.Row R.ImageRow.own self.new.bytes.now ≡ put_in R.Row.keys R.Row.joined row (image_ledger R.Row R.ImageRow.own self.old.bytes.now) }
        ensures same { OnErr result (self.new ≡ self.old) }
        ensures kept { KeptImage R.Row R.ImageRow.own self.new.bytes.now }
        ensures bytes { self.new.bytes.now ≡ put_bytes R.Row R.ImageRow.own row self.old.bytes.now }
        ensures lender { self.new.bytes.ghost_name ≡ self.old.bytes.ghost_name }
    {
        put_row::<R>(self.bytes, row)
    }

    // With the bytes after it: only the count is written.
    fn clear(&mut self)
        requires { KeptImage R.Row R.ImageRow.own self.old.bytes.now }
        ensures after { image_ledger R.Row R.ImageRow.own self.new.bytes.now ≡ with_rows (image_ledger R.Row R.ImageRow.own self.old.bytes.now) [] }
        ensures kept { KeptImage R.Row R.ImageRow.own self.new.bytes.now }
        ensures bytes { self.new.bytes.now ≡ blank_bytes self.old.bytes.now }
        ensures lender { self.new.bytes.ghost_name ≡ self.old.bytes.ghost_name }
    {
        clear_rows::<R>(self.bytes);
    }
}
