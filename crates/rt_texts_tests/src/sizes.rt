// Many metrics and children, and long names.

use crate::metrics::{EMPTY, attribute, give_up, grow, hits, raises_child, reads, refuses};
use crate::told::{holds, same};
use rt_base::{Error, Execution, MetricError};
use rt_metrics::{CounterFamily, Gauge, Registry, raw, task};
use std::alloc::Global;
use std::process::Abort;

/// How many gauges one name has at once.
const SERIES: u32 = 10_000;

/// How many names there are at once, and how many children one family has.
const MANY: u32 = 1_000;

/// What tells many gauges apart: a label of one name, or their names.
#[derive(Clone, Copy)]
enum By {
    Label,
    Name,
}

fn lines(text: &str) -> usize {
    let mut ends = 0_usize;
    for byte in text.as_bytes() {
        if *byte == b'\n' {
            ends = ends.saturating_add(1);
        }
    }
    ends
}

/// Whether a text begins and ends so, and has so many lines.
fn is_between(text: &str, first: &str, last: &str, wanted: usize) -> bool {
    let bytes = text.as_bytes();
    let begins = bytes.starts_with(first.as_bytes());
    begins & bytes.ends_with(last.as_bytes()) & (lines(text) == wanted)
}

/// Whether the text does.
fn reads_between(registry: &Registry, first: &str, last: &str, wanted: usize) -> bool {
    match registry.encode() {
        Ok(text) => is_between(text.as_str(), first, last, wanted),
        Err(_) => false,
    }
}

const FIRST_SERIES: &str =
    "# HELP load Load.\n# TYPE load gauge\nload{host=\"10000\"} 0\nload{host=\"9999\"} 0\n";

const LAST_SERIES: &str = "load{host=\"2\"} 0\nload{host=\"1\"} 0\n# EOF\n";

/// Names are in the order of their letters.
const FIRST_NAMES: &str = "# HELP load1 Load.\n# TYPE load1 gauge\nload1 0\n\
    # HELP load10 Load.\n# TYPE load10 gauge\nload10 0\n\
    # HELP load100 Load.\n# TYPE load100 gauge\nload100 0\n\
    # HELP load1000 Load.\n# TYPE load1000 gauge\nload1000 0\n\
    # HELP load101 Load.\n# TYPE load101 gauge\nload101 0\n";

const LAST_NAMES: &str = "# HELP load998 Load.\n# TYPE load998 gauge\nload998 0\n\
    # HELP load999 Load.\n# TYPE load999 gauge\nload999 0\n# EOF\n";

/// Whether the text has them all.
fn reads_all(registry: &Registry, by: By) -> bool {
    match by {
        By::Label => reads_between(registry, FIRST_SERIES, LAST_SERIES, SERIES as usize + 3),
        By::Name => reads_between(registry, FIRST_NAMES, LAST_NAMES, 3 * MANY as usize + 1),
    }
}

/// A gauge of that number.
fn numbered(alloc: Global, registry: &mut Registry, by: By, number: u32) -> Result<Gauge, Error> {
    match by {
        By::Label => {
            let host = format!(in alloc; "{number}")?;
            grow(alloc, registry, host.as_str())
        }
        By::Name => {
            let name = format!(in alloc; "load{number}")?;
            registry.register(name.as_str(), "Load", &[])
        }
    }
}

/// Whether the text has each, when so many gauges more are there at once.
fn series(alloc: Global, registry: &mut Registry, by: By, left: u32) -> bool {
    if left == 0 {
        return reads_all(registry, by);
    }
    match numbered(alloc, registry, by, left).ok() {
        Some(load) => {
            let seen = series(alloc, registry, by, left - 1);
            give_up(registry, load);
            seen
        }
        None => false,
    }
}

/// So many gauges are there at once, and then none.
fn come_and_go(rt: &impl Abort, alloc: Global, by: By, count: u32) {
    let mut registry = Registry::new(alloc);
    holds(rt, "series", series(alloc, &mut registry, by, count));
    reads(rt, &registry, EMPTY);
}

#[test]
fn ten_thousand_series(rt: HostRuntime) {
    come_and_go(&rt, rt.alloc(), By::Label, SERIES);
}

#[test]
fn a_thousand_names(rt: HostRuntime) {
    come_and_go(&rt, rt.alloc(), By::Name, MANY);
}

/// Makes the child of a number, and raises it by that.
fn raises_numbered(
    rt: &impl Abort,
    alloc: Global,
    registry: &mut Registry,
    hits: &CounterFamily,
    number: u32,
) {
    let name = format!(in alloc; "{number}").expect(rt, "room");
    let label = task::Label::task(name, Execution::Dedicated);
    raises_child(rt, registry, hits, &label, number as u64);
}

fn raises_many(rt: &impl Abort, alloc: Global, registry: &mut Registry, hits: &CounterFamily) {
    for number in 0..MANY {
        raises_numbered(rt, alloc, registry, hits, number);
    }
}

const FIRST_CHILDREN: &str = "# HELP hits Hits.\n# TYPE hits counter\n\
    hits_total{zone=\"x\",name=\"0\",kind=\"Task\",execution=\"Dedicated\"} 0\n\
    hits_total{zone=\"x\",name=\"1\",kind=\"Task\",execution=\"Dedicated\"} 1\n";

const LAST_CHILDREN: &str =
    "hits_total{zone=\"x\",name=\"998\",kind=\"Task\",execution=\"Dedicated\"} 998\n\
    hits_total{zone=\"x\",name=\"999\",kind=\"Task\",execution=\"Dedicated\"} 999\n# EOF\n";

#[test]
fn a_thousand_children(rt: HostRuntime) {
    let mut registry = Registry::new(rt.alloc());
    let hits = hits(&rt, rt.alloc(), &mut registry);
    raises_many(&rt, rt.alloc(), &mut registry, &hits);
    let read = reads_between(&registry, FIRST_CHILDREN, LAST_CHILDREN, MANY as usize + 3);
    holds(&rt, "children", read);
    give_up(&mut registry, hits);
    reads(&rt, &registry, EMPTY);
}

/// Letters of a long name, help and label.
const LONG: usize = 65_536;

/// A text of so many letters.
fn letters(rt: &impl Abort, alloc: Global, count: usize) -> String {
    let mut text = String::new(alloc);
    for _ in 0..count {
        text.push('x').expect(rt, "room");
    }
    text
}

/// Stops where the text is longer or shorter than so many letters and what stands between them.
fn has_length(rt: &impl Abort, registry: &Registry, letters: usize) {
    let between = "# HELP  .\n# TYPE  gauge\n{=\"\"} 0\n# EOF\n";
    let text = registry.encode().expect(rt, "room");
    same(
        rt,
        "a length",
        text.len(),
        letters.saturating_add(between.len()),
    );
}

/// A gauge of that name, help and label.
fn named(rt: &impl Abort, alloc: Global, registry: &mut Registry, name: &str) -> Gauge {
    let labels = attribute(alloc, name, name).expect(rt, "room");
    registry.register(name, name, &labels).expect(rt, "room")
}

/// A long text is taken, and refused with a dash at its end.
#[test]
fn longest_texts(rt: HostRuntime) {
    let mut registry = Registry::new(rt.alloc());
    let mut name = letters(&rt, rt.alloc(), LONG);
    let load = named(&rt, rt.alloc(), &mut registry, name.as_str());
    has_length(&rt, &registry, 6 * LONG);
    give_up(&mut registry, load);
    name.push('-').expect(&rt, "room");
    let why = MetricError::BadLabel;
    refuses::<raw::Gauge>(&rt, &mut registry, name.as_str(), "Load", why);
}
