// Virtual time.

/// A time in nanoseconds since the epoch, or a duration in nanoseconds.
pub type Nanos = u128;

/// The last moment of virtual time: `2^63` seconds less one nanosecond.
pub const MAX_TIME: Nanos = 9223372036854775807999999999;
