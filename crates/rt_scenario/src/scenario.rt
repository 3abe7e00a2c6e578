// What a scenario says.

use crate::line::Line;
use crate::script_texts::ScriptTexts;
use crate::short_name::ShortName;
use rt_base::{Items, Nanos, Text};

/// A scenario that breaks no rule: its settings, its scripts and its runs.
#[derive(Debug, Drop)]
pub struct Scenario {
    pub settings: Settings,
    /// The scripts in order; each has a name of its own.
    pub scripts: ScriptTexts,
    /// The runs in order, each after the one before it.
    pub runs: Items<RunLine>,
}

/// A run of a scenario, by the places of scripts among those of the scenario.
#[derive(Debug, Drop)]
pub struct RunLine {
    /// The script of the root.
    pub root: usize,
    /// The scripts that are spawned beside it, in order; one may be there often.
    pub with: Items<usize>,
}

/// The settings of a scenario: what the lines before the first script say of the runs. Each is `None` where no line
/// says it.
#[derive(Clone, Copy, Debug)]
pub struct Settings {
    /// The seed of the generator.
    pub seed: Option<u64>,
    /// The number of the first task of the first run.
    pub next: Option<u64>,
    /// How far time moves on after each round, in nanoseconds.
    pub cycle: Option<Nanos>,
    /// When the first run begins, in nanoseconds.
    pub start: Option<Nanos>,
    /// The deadline of all runs, in nanoseconds from the start of the first one on.
    pub timeout: Option<Nanos>,
    /// Whether panics are caught.
    pub catch: Option<bool>,
}

/// A script, as its lines say it: what contracts see of each of [`ScriptTexts`].
#[derive(Debug, Drop)]
pub struct ScriptText {
    pub name: ShortName,
    pub lines: Items<Line>,
    /// The names of the handles and signals that its lines hold, each once, in byte order.
    pub handles: Items<ShortName>,
    /// The words of its panics, in order of the lines.
    pub words: Items<Text>,
    /// The places among `handles` of the names that its choices take, in order of the lines.
    pub choices: Items<usize>,
}
