// Where a task asks to run.

/// A hint of where a task runs. It changes nothing under virtual time.
#[derive(Clone, Copy, Debug, PartialEq, Eq)]
pub enum Execution {
    /// On a thread of its own.
    Dedicated,
    /// Among the other tasks. `true` where it may block.
    Shared(bool),
}

impl Default for Execution {
    ghost use Rattle.std.specs.Prelude.{◌≡◌, false};
    ghost use Rattle.rt_base.specs.declared.execution.Execution.TheVariants.{Shared};

    ghost is_default = { λ e. e ≡ Shared false };

    fn default() -> Execution {
        Execution::Shared(false)
    }
}
