// The result of a poll.

/// The result of a poll: a value, or that it isn't there yet.
#[derive(Debug, Drop, PartialEq, Eq)]
pub enum Poll<V> {
    Ready(V),
    Pending,
}
