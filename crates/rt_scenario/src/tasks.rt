// How many tasks a run has.
ghost use Rattle.std.specs.Prelude.{◌≡◌, ◌+◌};
ghost use Rattle.rt_scenario.specs.Scripts.{tasks_at, spawned_in};
ghost use Rattle.rt_scenario.specs.Capped.{capped};

use crate::line::Line;

/// The greatest number of tasks of a run.
pub const MAX_TASKS: u64 = 100_000;

/// Returns the tasks of the scripts at these places, by the tasks of each script; `u64::MAX` where there are more.
pub fn tasks_at(tasks: &[u64], places: &[usize]) -> u64
    ensures { result ≡ capped (tasks_at tasks.now places.now) }
{
    let mut total = 0u64;
    let mut rest = places;
    while let Some((place, tail)) = rest.split_first() {
        total = total.saturating_add(tasks.get(*place).copied().unwrap_or(0));
        rest = tail;
    }
    total
}

/// One task and those that its lines spawn; `u64::MAX` where there are more.
pub fn tasks_of(tasks: &[u64], lines: &[Line]) -> u64
    ensures { result ≡ capped (1 + tasks_at tasks.now (spawned_in lines.now)) }
{
    let mut total = 1u64;
    let mut rest = lines;
    while let Some((line, tail)) = rest.split_first() {
        if let Line::Spawn(_, script) = line {
            total = total.saturating_add(tasks.get(*script).copied().unwrap_or(0));
        }
        rest = tail;
    }
    total
}
