// Each call once, the worked examples, and the text with all that it may hold.
//
// None of these functions has a contract, so that the tests' proofs stay small, and a call that wants a metric to be there is
// made behind an assertion that the registry says so.

use crate::told::{holds, same};
use rt_base::{Error, Execution, MetricError, NoMemory, Text};
use rt_metrics::status::{CounterGuard, Status};
use rt_metrics::{
    Batchable, Batched, Counter, CounterFamily, Detached, Gauge, GaugeExt, GaugeFamily, Home,
    LabelSet, Metric, Registered, Registry, raw, status, task,
};
use std::alloc::Global;
use std::process::Abort;

/// A metric of this name and help.
fn register<M: Metric>(
    rt: &impl Abort,
    registry: &mut Registry,
    name: &str,
    help: &str,
) -> Registered<M> {
    registry.register(name, help, &[]).expect(rt, name)
}

fn counter(rt: &impl Abort, registry: &mut Registry) -> Counter {
    register(rt, registry, "votes", "Votes")
}

fn gauge(rt: &impl Abort, registry: &mut Registry) -> Gauge {
    register(rt, registry, "load", "Load")
}

/// A counter by status.
fn statuses(rt: &impl Abort, registry: &mut Registry) -> status::Counter {
    register(rt, registry, "calls", "Calls")
}

/// Gives a claim up.
pub fn give_up<M>(registry: &mut Registry, metric: Registered<M>) {
    metric.release(registry);
}

/// Stops where the text is another one.
pub fn reads(rt: &impl Abort, registry: &Registry, wanted: &str) {
    let text = registry.encode().expect(rt, "room");
    assert!(rt; text.as_str() == wanted, "{text}");
}

/// The text of no metric.
pub const EMPTY: &str = "# EOF\n";

/// Stops where a number has more or fewer claims, or has a metric without a claim.
fn claimed(rt: &impl Abort, registry: &Registry, id: u64, claims: u64) {
    let seen = (registry.claims(id), registry.holds(id));
    assert!(rt; seen == (claims, claims > 0), "not {claims} claims");
}

/// Raises a counter, which had this value.
fn raises(rt: &impl Abort, registry: &mut Registry, counter: &Counter, by: u64, before: u64) {
    assert!(rt; registry.holds(counter.metric()));
    let seen = counter.inc_by(registry, by);
    assert!(rt; seen == before, "{seen} before {by}");
}

fn value_of(rt: &impl Abort, registry: &Registry, counter: &Counter) -> u64 {
    assert!(rt; registry.holds(counter.metric()));
    counter.get(registry)
}

/// Stops where a gauge has another value.
fn is_at(rt: &impl Abort, registry: &Registry, gauge: &Gauge, value: i64) {
    assert!(rt; registry.holds(gauge.metric()));
    same(rt, "a level", gauge.get(registry), value);
}

/// The number of a child.
fn child<M: Metric, L: LabelSet>(
    rt: &impl Abort,
    registry: &mut Registry,
    family: &Registered<raw::Family<M>>,
    labels: &L,
) -> u64 {
    assert!(rt; registry.holds(family.metric()));
    family.get_or_create_by(registry, labels).expect(rt, "room")
}

/// Stops where a child has another value.
fn has_value<M: Metric, L: LabelSet>(
    rt: &impl Abort,
    registry: &Registry,
    family: &Registered<raw::Family<M>>,
    labels: &L,
    value: Option<i128>,
) {
    let seen = family.get_by(registry, labels).expect(rt, "room");
    same(rt, "a child", seen, value);
}

/// Removes the child of timeouts, which was there or not.
fn removes(rt: &impl Abort, registry: &mut Registry, calls: &status::Counter, was_there: bool) {
    let seen = calls.remove_by(registry, &TIMEOUT).expect(rt, "room");
    same(rt, "a removed child", seen, was_there);
}

const RAISED: &str = "# HELP votes Votes.\n# TYPE votes counter\nvotes_total 3\n# EOF\n";

#[test]
fn text_of_a_counter(rt: HostRuntime) {
    let mut registry = Registry::new(rt.alloc());
    let votes = counter(&rt, &mut registry);
    raises(&rt, &mut registry, &votes, 3, 0);
    reads(&rt, &registry, RAISED);
    give_up(&mut registry, votes);
}

#[test]
fn claims_of_a_counter(rt: HostRuntime) {
    let mut registry = Registry::new(rt.alloc());
    let first = counter(&rt, &mut registry);
    let id = first.metric();
    let second = counter(&rt, &mut registry);
    claimed(&rt, &registry, id, 2);
    give_up(&mut registry, second);
    claimed(&rt, &registry, id, 1);
    give_up(&mut registry, first);
    claimed(&rt, &registry, id, 0);
    reads(&rt, &registry, EMPTY);
    let again: Counter = register(&rt, &mut registry, "votes", "Other");
    holds(&rt, "another number", again.metric() != id);
    give_up(&mut registry, again);
}

/// Publishes what a batch has, and ends it.
fn publish<H: Home, M: Batchable>(home: &mut H, batch: Batched<M>) {
    batch.release(home);
}

fn raise_by_one<H: Home>(home: &mut H, batch: &mut Batched<raw::Counter>) {
    batch.inc(home);
}

fn raise_by_five<H: Home>(home: &mut H, batch: &mut Batched<raw::Counter>) {
    batch.inc_by(home, 5);
}

/// Stops where a counter and its batch know other totals.
fn know(
    rt: &impl Abort,
    registry: &Registry,
    votes: &Counter,
    batch: &Batched<raw::Counter>,
    totals: (u64, u64),
) {
    let seen = (value_of(rt, registry, votes), batch.get());
    assert!(rt; seen == totals, "{} of {}", seen.0, seen.1);
}

/// What a counter and its batch know after updates by one.
const TICKS: &[(u64, u64)] = &[(0, 1), (0, 2), (3, 3), (3, 4), (3, 5), (6, 6)];

fn ticks_each(
    rt: &impl Abort,
    registry: &mut Registry,
    votes: &Counter,
    batch: &mut Batched<raw::Counter>,
) {
    for &totals in TICKS {
        raise_by_one(registry, batch);
        know(rt, registry, votes, batch, totals);
    }
}

#[test]
fn batches_of_a_counter(rt: HostRuntime) {
    let mut registry = Registry::new(rt.alloc());
    let votes = counter(&rt, &mut registry);
    let mut batch: Batched<raw::Counter> = Batched::new(votes.metric(), 3);
    ticks_each(&rt, &mut registry, &votes, &mut batch);
    raise_by_five(&mut registry, &mut batch);
    know(&rt, &registry, &votes, &batch, (6, 11));
    publish(&mut registry, batch);
    same(&rt, "all", value_of(&rt, &registry, &votes), 11);
    give_up(&mut registry, votes);
}

fn go_up_and_down<H: Home>(home: &mut H, batch: &mut Batched<raw::Gauge>) {
    batch.inc(home);
    batch.dec(home);
}

fn go_down_and_up<H: Home>(home: &mut H, batch: &mut Batched<raw::Gauge>) {
    batch.dec_by(home, 3);
    batch.inc(home);
}

fn set_twice<H: Home>(home: &mut H, batch: &mut Batched<raw::Gauge>) {
    batch.set(home, 5);
    batch.set(home, 5);
}

fn lower_by_nine<H: Home>(home: &mut H, batch: &mut Batched<raw::Gauge>) {
    batch.inc_by(home, -9);
}

/// The batch ends after its gauge.
#[test]
fn batches_of_a_gauge(rt: HostRuntime) {
    let mut registry = Registry::new(rt.alloc());
    let load = gauge(&rt, &mut registry);
    let mut batch: Batched<raw::Gauge> = Batched::new(load.metric(), 2);
    go_up_and_down(&mut registry, &mut batch);
    is_at(&rt, &registry, &load, 0);
    go_down_and_up(&mut registry, &mut batch);
    is_at(&rt, &registry, &load, -2);
    set_twice(&mut registry, &mut batch);
    is_at(&rt, &registry, &load, 5);
    same(&rt, "the batch", batch.get(), 5);
    lower_by_nine(&mut registry, &mut batch);
    give_up(&mut registry, load);
    publish(&mut registry, batch);
    reads(&rt, &registry, EMPTY);
}

/// A guard at a status.
fn guard(
    rt: &impl Abort,
    registry: &mut Registry,
    calls: &status::Counter,
    status: Status,
) -> CounterGuard {
    assert!(rt; registry.holds(calls.metric()));
    assert!(rt; registry.claims(calls.metric()) < u64::MAX);
    calls.guard(registry, status).expect(rt, "room")
}

fn finish(registry: &mut Registry, guard: CounterGuard) {
    guard.finish(registry);
}

const GUARDED: &str = "# HELP calls Calls.\n# TYPE calls counter\n\
    calls_total{status=\"Ambiguous\"} 0\n\
    calls_total{status=\"Dropped\"} 0\n\
    calls_total{status=\"Failure\"} 0\n\
    calls_total{status=\"Invalid\"} 0\n\
    calls_total{status=\"Success\"} 1\n\
    calls_total{status=\"Timeout\"} 0\n# EOF\n";

/// A guard is made with a failure, and goes well.
#[test]
fn guarded_status(rt: HostRuntime) {
    let mut registry = Registry::new(rt.alloc());
    let calls = statuses(&rt, &mut registry);
    let mut guard = guard(&rt, &mut registry, &calls, Status::Failure);
    claimed(&rt, &registry, calls.metric(), 2);
    guard.set(Status::Success);
    finish(&mut registry, guard);
    claimed(&rt, &registry, calls.metric(), 1);
    reads(&rt, &registry, GUARDED);
    give_up(&mut registry, calls);
    reads(&rt, &registry, EMPTY);
}

const TIMEOUT: status::Label = status::Label {
    status: Status::Timeout,
};

/// The child is away when its guard is finished, and then is made anew before.
#[test]
fn guard_of_a_removed_child(rt: HostRuntime) {
    let mut registry = Registry::new(rt.alloc());
    let calls = statuses(&rt, &mut registry);
    let first = guard(&rt, &mut registry, &calls, Status::Timeout);
    removes(&rt, &mut registry, &calls, true);
    finish(&mut registry, first);
    has_value(&rt, &registry, &calls, &TIMEOUT, None);
    let second = guard(&rt, &mut registry, &calls, Status::Timeout);
    removes(&rt, &mut registry, &calls, true);
    let _ = child(&rt, &mut registry, &calls, &TIMEOUT);
    finish(&mut registry, second);
    holds(&rt, "the family", registry.holds(calls.metric()));
    has_value(&rt, &registry, &calls, &TIMEOUT, Some(1));
    give_up(&mut registry, calls);
}

/// An attribute.
pub fn attribute(alloc: Global, key: &str, value: &str) -> Result<Vec<(Text, Text)>, NoMemory> {
    let key = Text::of(String::from_str(alloc, key)?);
    let value = Text::of(String::from_str(alloc, value)?);
    Ok(vec![in alloc; (key, value)]?)
}

/// No label at all.
struct NoLabels;

impl LabelSet for NoLabels {
    ghost use Rattle.std.specs.Prelude.{[]};

    ghost pairs = { λ _. [] };

    fn labels(&self, alloc: Global) -> Result<Vec<(Text, Text)>, NoMemory> {
        Ok(Vec::new(alloc))
    }
}

const FULL: &str = "# HELP hits Hits.\n# TYPE hits counter\n\
    hits_total{zone=\"x\"} 0\n\
    hits_total{zone=\"x\",name=\"\",kind=\"Root\",execution=\"Shared\"} 7\n\
    # HELP load Load.\n# TYPE load gauge\n\
    load{host=\"a\\\"b\\\\c\\nd\u{e9}\"} -5\n\
    load{host=\"z\"} 0\n\
    load{host=\"y\"} 0\n# EOF\n";

const LESS: &str =
    "# HELP load Load.\n# TYPE load gauge\nload{host=\"y\"} 0\nload{host=\"z\"} 0\n# EOF\n";

/// A gauge more.
pub fn grow(alloc: Global, registry: &mut Registry, host: &str) -> Result<Gauge, Error> {
    let place = attribute(alloc, "host", host)?;
    registry.register("load", "Load", &place)
}

/// Makes a child, and raises it.
pub fn raises_child<L: LabelSet>(
    rt: &impl Abort,
    registry: &mut Registry,
    hits: &CounterFamily,
    labels: &L,
    by: u64,
) {
    let id = child(rt, registry, hits, labels);
    registry.add_counter(id, by);
}

pub fn hits(rt: &impl Abort, alloc: Global, registry: &mut Registry) -> CounterFamily {
    let zone = attribute(alloc, "zone", "x").expect(rt, "room");
    registry.register("hits", "Hits", &zone).expect(rt, "room")
}

/// Makes a child that has labels, and one that has none.
fn add_children(rt: &impl Abort, alloc: Global, registry: &mut Registry, hits: &CounterFamily) {
    let root = task::Label::root(alloc);
    raises_child(rt, registry, hits, &root, 7);
    let _ = child(rt, registry, hits, &NoLabels);
    has_value(rt, registry, hits, &root, Some(7));
}

/// The text has gauges, a family of two children and one of none, and then fewer of them.
#[test]
fn text_with_all(rt: HostRuntime) {
    let alloc = rt.alloc();
    let mut registry = Registry::new(alloc);
    let load = grow(alloc, &mut registry, "a\"b\\c\nd\u{e9}").expect(&rt, "room");
    answers(&rt, &mut registry, &load, "set -5 -> 0");
    let second = grow(alloc, &mut registry, "z").expect(&rt, "room");
    let third = grow(alloc, &mut registry, "y").expect(&rt, "room");
    let hits = hits(&rt, alloc, &mut registry);
    let none: GaugeFamily = register(&rt, &mut registry, "none", "None");
    add_children(&rt, alloc, &mut registry, &hits);
    reads(&rt, &registry, FULL);
    give_up(&mut registry, none);
    give_up(&mut registry, hits);
    give_up(&mut registry, load);
    reads(&rt, &registry, LESS);
    give_up(&mut registry, third);
    give_up(&mut registry, second);
    reads(&rt, &registry, EMPTY);
}

/// Stops where a metric isn't refused so.
pub fn refuses<M: Metric>(
    rt: &impl Abort,
    registry: &mut Registry,
    name: &str,
    help: &str,
    why: MetricError,
) {
    match registry.register::<M>(name, help, &[]) {
        Ok(metric) => {
            give_up(registry, metric);
            panic!(rt; "{name}: {help}");
        }
        Err(error) => same(rt, help, error, Error::Metric(why)),
    }
}

fn refuses_prefix(rt: &impl Abort, registry: &mut Registry, prefix: &str) {
    match registry.sub_registry(prefix) {
        Ok(_scope) => panic!(rt; "{prefix}"),
        Err(error) => same(rt, prefix, error, Error::Metric(MetricError::BadLabel)),
    }
}

#[test]
fn refusals(rt: HostRuntime) {
    let mut registry = Registry::new(rt.alloc());
    let votes = counter(&rt, &mut registry);
    let why = MetricError::BadLabel;
    refuses::<raw::Counter>(&rt, &mut registry, "9a", "Votes", why);
    refuses::<raw::Counter>(&rt, &mut registry, "", "Votes", why);
    let why = MetricError::OtherHelp;
    refuses::<raw::Gauge>(&rt, &mut registry, "votes", "Other", why);
    let why = MetricError::OtherType;
    refuses::<raw::Gauge>(&rt, &mut registry, "votes", "Votes", why);
    refuses::<status::Raw>(&rt, &mut registry, "votes", "Votes", why);
    refuses_prefix(&rt, &mut registry, "a-b");
    give_up(&mut registry, votes);
}

/// A counter under two prefixes.
fn scoped(rt: &impl Abort, registry: &mut Registry) -> Counter {
    let scope = registry.sub_registry("a").expect(rt, "room");
    let inner = scope.sub_registry("b").expect(rt, "room");
    let votes = inner.register(registry, "votes", "Votes");
    votes.expect(rt, "room")
}

/// One claim more.
fn claim_more(rt: &impl Abort, registry: &mut Registry, votes: &Counter) -> Counter {
    assert!(rt; registry.holds(votes.metric()));
    assert!(rt; registry.claims(votes.metric()) < u64::MAX);
    votes.clone_claim(registry)
}

/// Raises a counter by one, which had this value.
fn rises(rt: &impl Abort, registry: &mut Registry, counter: &Counter, before: u64) {
    assert!(rt; registry.holds(counter.metric()));
    same(rt, "a rise", counter.inc(registry), before);
}

const SCOPED: &str =
    "# HELP a_b_votes Votes.\n# TYPE a_b_votes counter\na_b_votes_total 1\n# EOF\n";

#[test]
fn surface(rt: HostRuntime) {
    let mut registry = Registry::new(rt.alloc());
    let votes = scoped(&rt, &mut registry);
    let more = claim_more(&rt, &mut registry, &votes);
    give_up(&mut registry, votes);
    rises(&rt, &mut registry, &more, 0);
    reads(&rt, &registry, SCOPED);
    give_up(&mut registry, more);
}

/// The number that a word writes.
fn level(rt: &impl Abort, word: &str) -> i64 {
    word.parse::<i64>().expect(rt, word)
}

fn count(rt: &impl Abort, word: &str) -> u64 {
    word.parse::<u64>().expect(rt, word)
}

/// Makes a call on a gauge, which returns the value before where the new one fits.
fn answer(
    rt: &impl Abort,
    registry: &mut Registry,
    load: &Gauge,
    word: &str,
    number: &str,
) -> Option<i64> {
    assert!(rt; registry.holds(load.metric()));
    match (word, number) {
        ("inc", "") => Some(load.inc(registry)),
        ("inc-by", number) => Some(load.inc_by(registry, level(rt, number))),
        ("dec", "") => Some(load.dec(registry)),
        ("dec-by", number) => Some(load.dec_by(registry, level(rt, number))),
        ("set", number) => Some(load.set(registry, level(rt, number))),
        ("try-set", number) => load.try_set(registry, count(rt, number)).ok(),
        ("try-set-max", number) => load.try_set_max(registry, count(rt, number)).ok(),
        ("try-set-max-of-byte", number) => {
            let byte = number.parse::<u8>().expect(rt, number);
            load.try_set_max(registry, byte).ok()
        }
        ("get", "") => Some(load.get(registry)),
        _ => panic!(rt; "{word} {number}"),
    }
}

/// Makes the call of a row, which returns what is written behind it.
fn answers(rt: &impl Abort, registry: &mut Registry, load: &Gauge, row: &str) {
    let (call, wanted) = row.split_once(" -> ").expect(rt, row);
    let (word, number) = call.split_once(' ').unwrap_or((call, ""));
    let seen = answer(rt, registry, load, word, number);
    let wanted = match wanted {
        "refused" => None,
        wanted => Some(level(rt, wanted)),
    };
    assert!(rt; seen == wanted, "{row}");
}

fn answer_each(rt: &impl Abort, registry: &mut Registry, load: &Gauge, rows: &str) {
    holds(rt, "rows", !rows.is_empty());
    for row in rows.lines() {
        answers(rt, registry, load, row);
    }
}

/// Makes the calls of rows on a new gauge.
fn answers_of_gauge(rt: &impl Abort, registry: &mut Registry, rows: &str) {
    let load = gauge(rt, registry);
    answer_each(rt, registry, &load, rows);
    give_up(registry, load);
}

/// Calls on a gauge, and what each returns.
const GAUGE: &str = "\
inc -> 0
inc-by 5 -> 1
dec -> 6
dec-by -9223372036854775808 -> 5
set 3 -> -9223372036854775803
try-set 8 -> 3
try-set-max 8 -> 8
try-set 18446744073709551615 -> refused
try-set-max 18446744073709551615 -> refused
try-set-max-of-byte 4 -> 8
try-set-max-of-byte 9 -> 8
get -> 9
";

#[test]
fn surface_of_gauges(rt: HostRuntime) {
    let mut registry = Registry::new(rt.alloc());
    answers_of_gauge(&rt, &mut registry, GAUGE);
}

/// Counts one timeout, and then so many more.
fn counts(rt: &impl Abort, registry: &mut Registry, calls: &status::Counter, by: u64) {
    assert!(rt; registry.holds(calls.metric()));
    calls.inc(registry, Status::Timeout).expect(rt, "room");
    assert!(rt; registry.holds(calls.metric()));
    let counted = calls.inc_by(registry, Status::Timeout, by);
    counted.expect(rt, "room");
}

#[test]
fn surface_of_statuses(rt: HostRuntime) {
    let mut registry = Registry::new(rt.alloc());
    let calls = statuses(&rt, &mut registry);
    counts(&rt, &mut registry, &calls, u64::MAX);
    has_value(&rt, &registry, &calls, &TIMEOUT, Some(0));
    removes(&rt, &mut registry, &calls, true);
    removes(&rt, &mut registry, &calls, false);
    give_up(&mut registry, calls);
}

/// Stops where this isn't one of the values of labels.
fn has_label(rt: &impl Abort, alloc: Global, label: &task::Label, wanted: &str) {
    let labels = label.labels(alloc).expect(rt, "room");
    let mut found = false;
    for (_, value) in labels.as_slice() {
        found |= value.as_str() == wanted;
    }
    holds(rt, wanted, found);
}

fn copied_label(rt: &impl Abort, alloc: Global) -> task::Label {
    let name = String::from_str(alloc, "p_c").expect(rt, "room");
    let label = task::Label::task(name, Execution::Shared(true));
    label.clone_value().expect(rt, "room")
}

#[test]
fn surface_of_tasks(rt: HostRuntime) {
    let copy = copied_label(&rt, rt.alloc());
    has_label(&rt, rt.alloc(), &copy, "SharedBlocking");
    holds(&rt, "a name", copy.name() == "p_c");
    let alone = task::Label::task(String::new(rt.alloc()), Execution::Dedicated);
    has_label(&rt, rt.alloc(), &alone, "Dedicated");
}

fn detached_counter() -> bool {
    let mut counter: Detached<raw::Counter, u8> = Detached::new(7);
    counter.add_counter(0, u64::MAX);
    counter.add_counter(9, 3);
    counter.add_gauge(0, 5);
    (counter.get() == 2) & (counter.release() == 7)
}

fn detached_gauge() -> bool {
    let mut gauge: Detached<raw::Gauge, u8> = Detached::with_registration(8);
    gauge.add_gauge(0, -3);
    gauge.add_counter(0, 9);
    (gauge.get() == -3) & (gauge.release() == 8)
}

#[test]
fn surface_of_detached(rt: HostRuntime) {
    holds(&rt, "a counter", detached_counter());
    holds(&rt, "a gauge", detached_gauge());
}

const BOUNDS: &str = "\
set 9223372036854775807 -> 0
inc -> 9223372036854775807
inc-by 5 -> -9223372036854775808
set -9223372036854775808 -> -9223372036854775803
dec -> -9223372036854775808
dec-by -9223372036854775808 -> 9223372036854775807
";

#[test]
fn numbers_at_their_bounds(rt: HostRuntime) {
    let mut registry = Registry::new(rt.alloc());
    let votes = counter(&rt, &mut registry);
    raises(&rt, &mut registry, &votes, u64::MAX, 0);
    raises(&rt, &mut registry, &votes, 1, u64::MAX);
    raises(&rt, &mut registry, &votes, u64::MAX, 0);
    raises(&rt, &mut registry, &votes, 2, u64::MAX);
    raises(&rt, &mut registry, &votes, 0, 1);
    give_up(&mut registry, votes);
    answers_of_gauge(&rt, &mut registry, BOUNDS);
}
