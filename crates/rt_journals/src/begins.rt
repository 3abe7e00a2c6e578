//! How runs begin.

use rt_model::Begin;

/// From time 0 and number 0 on, with a cycle of a millisecond.
pub const BEGIN: Begin = Begin {
    start: 0,
    cycle: 1_000_000,
    deadline: None,
    first: 0,
    catch: false,
};

/// The beginning of this name.
pub fn begin_of(name: &str) -> Option<Begin> {
    Some(match name {
        "begin" => BEGIN,
        "catching" => Begin {
            catch: true,
            ..BEGIN
        },
        "timed" => until(10_000_000),
        "early" => until(500_000),
        "two-left" => from_number(u64::MAX - 2),
        "one-left" => from_number(u64::MAX - 1),
        _ => return None,
    })
}

/// With a deadline.
fn until(deadline: rt_base::Nanos) -> Begin {
    Begin {
        deadline: Some(deadline),
        ..BEGIN
    }
}

/// With this number for the first task.
fn from_number(first: u64) -> Begin {
    Begin { first, ..BEGIN }
}
