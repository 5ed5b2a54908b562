// The memory at the bottom, lent to stores that a user works over.
use crate::pile::Room;
use crate::user::StoreUser;
use anyhow::anyhow;
use images::format::blank;
use imagestore::image::{DayImage, LineImage};
use ledger::day::{DayCell, DayRow};
use ledger::line::{LineCell, LineRow};
use stores::table::TableStore;

// A byte that is no digit, in the room of an image that holds no row yet.
const UNUSED: u8 = b'-';

// Bytes that hold an empty image.
fn empty_image(rt: &HostRuntime, length: usize) -> anyhow::Result<Vec<u8>> {
    let mut bytes = vec![in rt.alloc(); UNUSED; length]?;
    blank(&mut bytes).map_err(|_| anyhow!("the image has no room for its count"))?;
    Ok(bytes)
}

pub fn in_tables<U: StoreUser>(rt: &HostRuntime, room: Room, user: U) -> anyhow::Result<U::Answer> {
    let mut lines = vec![in rt.alloc(); LineCell::default(); room.rows]?;
    let mut days = vec![in rt.alloc(); DayCell::default(); room.rows]?;
    user.run(
        rt,
        TableStore::<LineRow>::new(&mut lines),
        TableStore::<DayRow>::new(&mut days),
    )
}

pub fn in_images<U: StoreUser>(rt: &HostRuntime, room: Room, user: U) -> anyhow::Result<U::Answer> {
    let mut lines = empty_image(rt, room.line_image)?;
    let mut days = empty_image(rt, room.day_image)?;
    user.run(rt, LineImage::open(&mut lines), DayImage::open(&mut days))
}

// Lines in an image, days in a table.
pub fn in_both<U: StoreUser>(rt: &HostRuntime, room: Room, user: U) -> anyhow::Result<U::Answer> {
    let mut lines = empty_image(rt, room.line_image)?;
    let mut days = vec![in rt.alloc(); DayCell::default(); room.rows]?;
    user.run(
        rt,
        LineImage::open(&mut lines),
        TableStore::<DayRow>::new(&mut days),
    )
}
