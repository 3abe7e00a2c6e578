// The two ends of a channel, and a receiver that waits.
ghost use Rattle.std.specs.Prelude.{◌≡◌, true, false, ◌&&◌, ◌||◌, not};

/// What is known of a sink or a stream.
#[derive(Clone, Copy, Debug, Drop)]
pub struct Half {
    /// The token was not closed.
    pub alive: bool,
    /// A call failed for good.
    pub failed: bool,
    /// A wait was given up.
    pub given_up: bool,
}

/// A parked `recv`: how many bytes are missing, and the task that waits.
#[derive(Clone, Copy, Debug, Drop)]
pub struct Parked {
    /// Bytes that are missing.
    pub need: usize,
    /// The task to wake.
    pub task: u64,
}

impl Half {
    /// Makes a half that is alive, hasn't failed, and of which no wait was given up.
    pub fn new() -> Half
        ensures { result ≡ record { alive = true; failed = false; given_up = false } }
    {
        Half {
            alive: true,
            failed: false,
            given_up: false,
        }
    }

    /// Returns whether the half is neither closed nor failed.
    pub fn is_open(&self) -> bool
        ensures { result ≡ (self.now.alive && not self.now.failed) }
    {
        self.alive && !self.failed
    }

    /// Returns whether a further `send` or `recv` of the half is refused, since one failed or was given up.
    pub fn is_spent(&self) -> bool
        ensures { result ≡ (self.now.failed || self.now.given_up) }
    {
        self.failed || self.given_up
    }
}
