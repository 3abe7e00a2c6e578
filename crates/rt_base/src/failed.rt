// The one refusal of a source or a sink.

/// The error of a read or a write that failed. The count of faults of the source or sink rose with it.
#[derive(Clone, Copy, Debug, PartialEq, Eq)]
pub struct Failed;
