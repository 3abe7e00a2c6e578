//! Who is polled.

ghost use Rattle.std.specs.Prelude.{◌≡◌};

/// What a poll receives of the task that is polled.
#[derive(Clone, Copy, Debug)]
pub struct Cx {
    task: u64,
}

impl Cx {
    /// Makes what a poll of this task receives.
    pub fn new(task: u64) -> Self
        ensures { result.task ≡ task }
    {
        Cx { task }
    }

    /// Returns the number of the task that is polled.
    pub fn task(&self) -> u64
        ensures { result ≡ self.now.task }
    {
        self.task
    }
}
