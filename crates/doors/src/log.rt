//! The log, and what is picked from it.
ghost use Rattle.std.specs.Prelude.{◌≡◌, map, IfOk};
ghost use Rattle.std.specs.List.{range_with_len};
ghost use Rattle.doors.specs.Doors.{door_of, logged};

use super::door::Door;
use kernels::Event;
use selection::Run;
use std::alloc::{AllocError, Global};

/// The seconds of the log: three chunks.
pub const SECONDS: u64 = 3072;

/// The cable is out from this second on ..
const PULLED: u64 = 1500;

/// .. and in place again from this one on.
const BACK: u64 = 1540;

/// The seconds around the gap that are picked.
pub const AROUND: [u64; 10] = [1480, 1490, 1498, 1499, 1500, 1520, 1539, 1540, 1541, 1560];

/// What is picked in three forms: ten seconds across the edge of a chunk, and two hundred around
/// the gap.
pub const STRETCHES: [Run; 2] = [
    Run {
        start: 1020,
        end: 1030,
    },
    Run {
        start: 1450,
        end: 1650,
    },
];

/// What the door says at a second.
pub fn door_at(second: u64) -> Door
    ensures { result ≡ door_of second }
{
    if second >= PULLED && second < BACK {
        Door::Silent
    } else {
        Door::Signal
    }
}

/// The reading of a second.
pub fn reading(second: u64) -> Event
    ensures { result ≡ logged second }
{
    Event {
        time: second,
        lift: 7,
        code: u32::from(door_at(second)),
    }
}

/// The whole log.
pub fn door_log(heap: Global) -> Result<Vec<Event>, AllocError>
    ensures { IfOk result (λ log. log.items ≡ map logged (range_with_len 0 3072)) }
{
    (0..SECONDS).map(reading).collect(heap)
}
