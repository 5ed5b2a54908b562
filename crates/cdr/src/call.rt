// A call as its record gives it.
use values::calendar::{Day, Duration, TimeOfDay};
use values::labels::{Descriptor, Point};

// A call that was answered and ended.
#[derive(Clone, Copy, PartialEq, Eq)]
pub struct CallRecord {
    pub sequential: u64,
    pub day: Day,
    pub time: TimeOfDay,
    pub duration: Duration,
    pub point: Point,
    pub descriptor: Descriptor,
}
