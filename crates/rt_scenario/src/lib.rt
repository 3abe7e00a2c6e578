//! Reads the text of a scenario: its settings, its scripts and its runs.
#![tactic(auto)]

mod common;
mod draft;
mod handles;
mod kind;
mod let_go;
mod line;
mod lists;
mod named_line;
mod names;
mod numbers;
mod open_script;
mod reader;
mod scenario;
mod script_texts;
mod short_name;
mod split;
mod stop;
mod tasks;
mod word;

pub use kind::Kind;
pub use line::Line;
pub use reader::{Broken, Refusal, read_scenario};
pub use scenario::{RunLine, Scenario, ScriptText, Settings};
pub use script_texts::ScriptTexts;
pub use short_name::ShortName;
