// What became of one group of signals.

/// A group: its value once it came, and whether its signaler is there.
#[derive(Clone, Copy)]
pub struct SignalGroup {
    pub value: Option<i32>,
    pub alive: bool,
}
