// The cases of a text, and what comes of each.

use crate::lawful::verdict_on;
use rt_base::{ListSink, ListSource, NoMemory};
use rt_scripts::simulate_alone;
use std::alloc::Global;
use std::str;

/// Runs a scenario, and adds its report, its status, and what the walker says of its journals.
fn add_report(alloc: Global, text: &mut String, scenario: &str) -> Result<(), NoMemory> {
    let words = vec![in alloc; "run".to_owned(alloc)?; 1]?;
    let bytes = Vec::from_slice(alloc, scenario.as_bytes())?;
    let mut source = ListSource::new(bytes, Vec::new(alloc), 1000);
    let mut sink = ListSink::new(alloc, Vec::new(alloc), 1000);
    let outcome = simulate_alone(alloc, words.as_slice(), &mut source, &mut sink);
    let report = str::from_utf8(sink.as_slice()).unwrap_or("");
    text.push_str(report)?;
    let catch = scenario.contains("catch on\n");
    let verdict = verdict_on(alloc, catch, report)?;
    write!(text, "status {}{verdict}\n", outcome.status)?;
    Ok(())
}

/// What comes of the cases of this text: of each its heading, and then its report.
pub fn text_of_cases(alloc: Global, input: &str) -> Result<String, NoMemory> {
    let mut text = String::new(alloc);
    for case in input.split("== ") {
        if let Some((heading, scenario)) = case.split_once('\n') {
            write!(text, "== {heading}\n")?;
            add_report(alloc, &mut text, scenario)?;
        }
    }
    Ok(text)
}
