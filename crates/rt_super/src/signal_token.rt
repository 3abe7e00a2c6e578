// One signal or completion.

/// A signal or a completion: the number of its group, and the task that waits by it.
#[derive(Clone, Copy)]
pub struct SignalToken {
    pub group: u64,
    pub waits: Option<u64>,
}
