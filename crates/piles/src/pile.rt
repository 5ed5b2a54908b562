// The piles, by name.
ghost use Rattle.std.specs.Prelude.{◌≡◌};
ghost use Rattle.piles.specs.Piles.{pile_name};

use crate::memory::{in_both, in_images, in_tables};
use crate::user::{DaysHeld, Held, StoreUser};

// How much memory is lent: the rows of each table, and the bytes of each image.
#[derive(Clone, Copy)]
pub struct Room {
    pub rows: usize,
    pub line_image: usize,
    pub day_image: usize,
}

// Room for 500 rows of each store.
pub const ROOM_FOR_500: Room = Room {
    rows: 500,
    line_image: 26_507,
    day_image: 27_507,
};

// What keeps the rows: tables or images, alone or below hold-back layers.
#[derive(Clone, Copy, PartialEq, Eq, Debug)]
pub enum Pile {
    Table,
    Image,
    HeldTable,
    HeldImage,
    TwiceHeldTable,
    ImageAndHeldTable,
}

impl Pile {
    pub fn name(self) -> &'static str
        ensures { result.now ≡ pile_name self }
    {
        match self {
            Pile::Table => "table",
            Pile::Image => "image",
            Pile::HeldTable => "held-table",
            Pile::HeldImage => "held-image",
            Pile::TwiceHeldTable => "twice held table",
            Pile::ImageAndHeldTable => "lines in an image, days held over a table",
        }
    }
}

// Does the user's work over the stores of a pile.
pub fn over<U: StoreUser>(
    rt: &HostRuntime,
    pile: Pile,
    room: Room,
    user: U,
) -> anyhow::Result<U::Answer> {
    match pile {
        Pile::Table => in_tables(rt, room, user),
        Pile::Image => in_images(rt, room, user),
        Pile::HeldTable => in_tables(rt, room, Held { user }),
        Pile::HeldImage => in_images(rt, room, Held { user }),
        Pile::TwiceHeldTable => in_tables(
            rt,
            room,
            Held {
                user: Held { user },
            },
        ),
        Pile::ImageAndHeldTable => in_both(rt, room, DaysHeld { user }),
    }
}
