// A line of a script.

use rt_base::Nanos;

/// What a task of the script does at one line.
///
/// A handle's or a signal's place is that of its name among the script's `handles`, a word's that among its `words`, and
/// a script's that among those of the scenario.
#[derive(Clone, Copy, Debug, PartialEq, Eq)]
pub enum Line {
    /// Sleeps so long.
    Sleep(Nanos),
    /// Sleeps until this moment.
    Until(Nanos),
    /// Lets the other tasks run first.
    Yield,
    /// Draws the generator's next number, and takes it modulo 2^63.
    Draw,
    /// Returns pending at each poll.
    Pend,
    /// Ends with this value.
    End(i64),
    /// Ends with the value of the last line.
    EndLast,
    /// Panics with the word at this place.
    Panic(usize),
    /// Spawns the script at the second place, and keeps the handle at the first.
    Spawn(usize, usize),
    /// Aborts the task of this handle.
    Abort(usize),
    /// Aborts itself.
    AbortSelf,
    /// Gives this handle up.
    Drop(usize),
    /// Waits for the task of this handle.
    Join(usize),
    /// Waits for the task of this handle for at most so long.
    Within(usize, Nanos),
    /// Waits for the first to end of the tasks whose handles are chosen: those from the first place of the script's
    /// `choices` on and before the second. There is at least one.
    Select(usize, usize),
    /// Makes a signal of the run's shutdown, and keeps it at this place.
    Stopped(usize),
    /// Waits for this signal.
    Wait(usize),
    /// Begins the run's shutdown with this value, and waits for its end.
    Stop(i32),
    /// The same, for at most so long. A variant of its own, since many lines are kept.
    StopWithin(i32, Nanos),
}
