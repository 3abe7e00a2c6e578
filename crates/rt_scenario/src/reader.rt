// Reads a whole scenario.
ghost use Rattle.std.specs.Prelude.{◌≡◌, true, IfOk};
ghost use Rattle.std.specs.List.{All};
ghost use Rattle.rt_scenario.specs.Scenario.{scenario_of, is_runnable, CanRunLine};
ghost use Rattle.rt_scenario.specs.Answers.{Reads};
ghost use Rattle.rt_scenario.specs.Within.{HavePlaces};

use crate::draft::Draft;
use crate::kind::Kind;
use crate::scenario::Scenario;
use crate::split::split_line;
use crate::stop::Stop;
use std::alloc::Global;

/// The first line that breaks a rule, and the rule.
#[derive(Clone, Copy, Debug, PartialEq, Eq)]
pub struct Broken {
    /// Its number, from 1.
    pub line: u64,
    pub kind: Kind,
}

/// Why a text is no scenario, or wasn't read.
#[derive(Clone, Copy, Debug, PartialEq, Eq)]
pub enum Refusal {
    Broken(Broken),
    NoMemory,
}

/// Reads the text of a scenario in one pass, and returns the scenario, which can be run, or why there is none.
///
/// Errors: `Broken` with the first line that breaks a rule, `NoMemory`. Where a script isn't closed at the end, or
/// nothing is run, the line after the last is broken. Beside a scenario, large tables that only the reader needs keep
/// their memory until the process ends.
pub fn read_scenario(alloc: Global, bytes: &[u8]) -> Result<Scenario, Refusal>
    ensures says { Reads (scenario_of bytes.now) result }
    ensures runs { IfOk result (λ s. All (CanRunLine s.scripts s.settings) s.runs) }
    ensures settings { IfOk result (λ s. is_runnable s.settings ≡ true) }
    ensures places { IfOk result (λ s. HavePlaces s.scripts) }
{
    let Ok(mut draft) = Draft::for_text(alloc, bytes.len()) else {
        return Err(Refusal::NoMemory);
    };
    let mut line = 1u64;
    let mut rest = bytes;
    while !rest.is_empty() {
        let (text, tail) = split_line(rest);
        match draft.take_line(text) {
            Ok(()) => {}
            Err(Stop::Breaks(kind)) => return Err(Refusal::Broken(Broken { line, kind })),
            Err(Stop::NoMemory) => return Err(Refusal::NoMemory),
        }
        line += 1;
        rest = tail;
    }
    match draft.finish() {
        Some(scenario) => Ok(scenario),
        None => Err(Refusal::Broken(Broken {
            line,
            kind: Kind::NoRun,
        })),
    }
}
