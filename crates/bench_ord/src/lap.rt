//! How long a round of a measure took, and what it answered.
ghost use Rattle.std.specs.Prelude.{◌≡◌, min};

use std::io;
use std::time::Instant;

/// One round: how long it took, and the sum of what it answered.
#[derive(Clone, Copy)]
pub struct Lap {
    pub nanoseconds: u128,
    pub sum: u64,
}

impl Lap {
    /// The round that began then, and ends now with this sum.
    pub fn since(rt: &HostRuntime, start: Instant, sum: u64) -> io::Result<Self> {
        let nanoseconds = start.elapsed(rt)?.as_nanos();
        Ok(Lap { nanoseconds, sum })
    }

    /// The lesser time of two rounds, with the sum of the other one.
    pub fn or_quicker(self, other: Lap) -> Self
        ensures { result
            ≡ record { nanoseconds = min self.nanoseconds other.nanoseconds; sum = other.sum } }
    {
        Lap {
            nanoseconds: self.nanoseconds.min(other.nanoseconds),
            sum: other.sum,
        }
    }
}

/// How many rounds are run at n entries.
pub fn rounds(n: usize) -> usize {
    (300_000 / n.max(1)).clamp(3, 30)
}
