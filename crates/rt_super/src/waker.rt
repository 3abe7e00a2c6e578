// Whom a number means.
ghost use Rattle.std.specs.Prelude.{◌≡◌};
ghost use Rattle.rt_super.specs.Wakers.{waker_of};

/// The number that no task has. In an alarm or a poll it means nobody.
pub const NOBODY: u64 = u64::MAX;

/// Returns the task that a number means, or none for `NOBODY`.
pub fn waker(number: u64) -> Option<u64>
    ensures { result ≡ waker_of number }
{
    if number == NOBODY { None } else { Some(number) }
}
