//! A time in two halves.

ghost use Rattle.std.specs.Prelude.{◌≡◌};

use rt_base::{Nanos, Packed};
use std::marker::Model;

/// The numbers of a half.
const HALF: u128 = 0x1_0000_0000_0000_0000;

/// A time in nanoseconds since the epoch, in two halves without an alignment, so that an entry that holds one has no
/// padding before it. Contracts see the time.
#[derive(Debug, Drop)]
pub struct Moment {
    high: Packed,
    low: Packed,
}

impl Model for Moment {
    ghost use Rattle.std.specs.Prelude.{ℕ, ◌+◌, ◌*◌, ◌^◌};

    ghost Value = { ℕ };

    ghost view = { λ m. m.high * 2 ^ 64 + m.low };
}

impl Moment {
    /// Packs a time, in nanoseconds since the epoch.
    #[inline(always)]
    pub fn new(time: Nanos) -> Moment
        ensures { result ≡ time }
    {
        Moment {
            high: Packed::new((time / HALF) as u64),
            low: Packed::new((time % HALF) as u64),
        }
    }

    /// Returns the time, in nanoseconds since the epoch.
    #[inline(always)]
    pub fn nanos(&self) -> Nanos
        ensures { result ≡ self.now }
    {
        u128::from(self.high.get()) * HALF + u128::from(self.low.get())
    }
}
