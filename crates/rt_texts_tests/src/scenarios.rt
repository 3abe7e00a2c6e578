// Which line is broken first and how, and what a whole scenario says.

use crate::told::{holds, same};
use rt_base::Text;
use rt_scenario::{
    Broken, Kind, Line, Refusal, RunLine, Scenario, ScriptTexts, ShortName, read_scenario,
};
use std::alloc::{AllocError, Global};
use std::process::Abort;

/// A text that breaks no rule.
fn read(rt: &impl Abort, alloc: Global, text: &str) -> Scenario {
    read_scenario(alloc, text.as_bytes()).expect(rt, "a scenario")
}

/// Stops where another text comes of a row.
fn is(rt: &impl Abort, row: &str, seen: String, wanted: &str) {
    assert!(rt;
        seen.as_str() == wanted,
        "{row} comes to {seen}, not {wanted}"
    );
}

/// A text, in which `|` stands for the end of a line.
fn lines_of(rt: &impl Abort, alloc: Global, row: &str) -> String {
    row.replace(alloc, "|", "\n").expect(rt, "room")
}

fn add_lines(rt: &impl Abort, text: &mut String, lines: &[Line]) {
    for line in lines {
        write!(text, " {line:?}").expect(rt, "room");
    }
}

fn add_names(rt: &impl Abort, text: &mut String, names: &[ShortName]) {
    for name in names {
        let name = name.as_str();
        write!(text, " @{name}").expect(rt, "room");
    }
}

fn add_words(rt: &impl Abort, text: &mut String, words: &[Text]) {
    for word in words {
        let word = word.as_str();
        write!(text, " '{word}'").expect(rt, "room");
    }
}

fn add_choices(rt: &impl Abort, text: &mut String, places: &[usize]) {
    for place in places {
        write!(text, " #{place}").expect(rt, "room");
    }
}

/// Adds a line for each script: its name, its lines, each name of a handle behind `@`, its words, and each choice behind `#`.
fn add_scripts(rt: &impl Abort, text: &mut String, scripts: &ScriptTexts) {
    for place in 0..scripts.len() {
        text.push_str(scripts.name(place)).expect(rt, "room");
        add_lines(rt, text, scripts.lines(place));
        add_names(rt, text, scripts.handles(place));
        add_words(rt, text, scripts.words(place));
        add_choices(rt, text, scripts.choices(place));
        text.push('\n').expect(rt, "room");
    }
}

/// Adds a line for each run: the place of its root, and the places beside it.
fn add_runs(rt: &impl Abort, text: &mut String, runs: &[RunLine]) {
    for run in runs {
        let root = run.root;
        write!(text, "run {root}").expect(rt, "room");
        for place in run.with.as_slice() {
            write!(text, " {place}").expect(rt, "room");
        }
        text.push('\n').expect(rt, "room");
    }
}

/// What a scenario says.
fn told(rt: &impl Abort, alloc: Global, scenario: &Scenario) -> String {
    let settings = scenario.settings;
    let mut text = format!(in alloc; "{settings:?}\n").expect(rt, "room");
    add_scripts(rt, &mut text, &scenario.scripts);
    add_runs(rt, &mut text, scenario.runs.as_slice());
    text
}

/// Texts, each with what it says.
const SCENARIOS: &str = "\
== # two scripts||timeout 9223372036854775807999999999|script a|sleep 0|yield|draw|pend|end 7|done|script b_2|\
sleep 340282366920938463463374607431768211455|end -9223372036854775808|end last|done|script c|done|run b_2|
Settings { seed: None, next: None, cycle: None, start: None, timeout: Some(9223372036854775807999999999), catch: None }
a Sleep(0) Yield Draw Pend End(7)
b_2 Sleep(340282366920938463463374607431768211455) End(-9223372036854775808) EndLast
c
run 1
== catch off|next 18446744073709551615|start 9223372036854775807999999998|seed 0|\
cycle 340282366920938463463374607431768211455|timeout 1|script a|done|run a|
Settings { seed: Some(0), next: Some(18446744073709551615), cycle: Some(340282366920938463463374607431768211455), \
start: Some(9223372036854775807999999998), timeout: Some(1), catch: Some(false) }
a
run 0
== script a|done|run a|
Settings { seed: None, next: None, cycle: None, start: None, timeout: None, catch: None }
a
run 0
== catch on|script idle|pend|done|script self|panic a~|done|script main|spawn z idle|spawn b_1 self|\
until 340282366920938463463374607431768211455|panic boom|abort b_1|abort self|drop self|abort z|join z|join B|\
within 7 b_1|panic boom|spawn z idle|done|run main with self idle self|
Settings { seed: None, next: None, cycle: None, start: None, timeout: None, catch: Some(true) }
idle Pend
self Panic(0) 'a~'
main Spawn(3, 0) Spawn(1, 1) Until(340282366920938463463374607431768211455) Panic(0) Abort(1) AbortSelf Drop(2) \
Abort(3) Join(3) Join(0) Within(1, 7) Panic(1) Spawn(3, 0) @B @b_1 @self @z 'boom' 'boom'
run 2 1 0 1
== script a|done|run a|run a|
Settings { seed: None, next: None, cycle: None, start: None, timeout: None, catch: None }
a
run 0
run 0
== script a|done|script b|done|script c|done|run c|run a with b c b|
Settings { seed: None, next: None, cycle: None, start: None, timeout: None, catch: None }
a
b
c
run 2
run 0 1 2 1
== script a|done|script run|done|run run with a||# again|run a with run|run run|
Settings { seed: None, next: None, cycle: None, start: None, timeout: None, catch: None }
a
run
run 1 0
run 0 1
run 1
== script idle|done|script main|stopped wait|spawn g idle|stopped B|wait wait|wait nothing|stop 2147483647|\
stop -2147483648 340282366920938463463374607431768211455|stop 0 0|stopped g|join wait|done|run main|
Settings { seed: None, next: None, cycle: None, start: None, timeout: None, catch: None }
idle
main Stopped(3) Spawn(1, 0) Stopped(0) Wait(3) Wait(2) Stop(2147483647) StopWithin(-2147483648, \
340282366920938463463374607431768211455) StopWithin(0, 0) Stopped(1) Join(3) @B @g @nothing @wait
run 1
== script idle|done|script main|spawn k idle|select z|select k B k|join B|select a z|done|run main|
Settings { seed: None, next: None, cycle: None, start: None, timeout: None, catch: None }
idle
main Spawn(2, 0) Select(0, 1) Select(1, 4) Join(0) Select(4, 6) @B @a @k @z #3 #2 #0 #2 #1 #3
run 1
";

fn says(rt: &impl Abort, alloc: Global, row: &str, wanted: &str) {
    let text = lines_of(rt, alloc, row);
    let scenario = read(rt, alloc, text.as_str());
    is(rt, row, told(rt, alloc, &scenario), wanted);
}

#[test]
fn surface(rt: HostRuntime) {
    holds(&rt, "a row", SCENARIOS.starts_with("== "));
    for block in SCENARIOS.split("== ").skip(1) {
        let (row, wanted) = block.split_once('\n').expect(&rt, block);
        says(&rt, rt.alloc(), row, wanted);
    }
}

/// What comes of a text: that it is read, or the line that is broken first and the word of the rule that it breaks.
fn outcome(rt: &impl Abort, alloc: Global, text: &[u8]) -> String {
    let answer = match read_scenario(alloc, text).err() {
        None => String::from_str(alloc, "read"),
        Some(Refusal::Broken(broken)) => broken_text(alloc, broken),
        Some(Refusal::NoMemory) => Err(AllocError),
    };
    answer.expect(rt, "room")
}

fn broken_text(alloc: Global, broken: Broken) -> Result<String, AllocError> {
    let (line, kind) = (broken.line, broken.kind);
    format!(in alloc; "{line} {kind}")
}

/// Stops where another outcome comes of a text.
fn text_comes_to(rt: &impl Abort, alloc: Global, text: &str, wanted: &str) {
    let lines = lines_of(rt, alloc, text);
    is(rt, text, outcome(rt, alloc, lines.as_bytes()), wanted);
}

/// Takes the text of a row for each of these lines, for which `#` stands.
fn each_line_comes_to(rt: &impl Abort, alloc: Global, text: &str, wanted: &str, lines: &str) {
    for line in lines.split(", ") {
        let text = text.replace(alloc, "#", line).expect(rt, "room");
        text_comes_to(rt, alloc, text.as_str(), wanted);
    }
}

/// Takes a row: a text, what comes of it, and behind a colon the lines for which `#` stands, if it does.
fn row_comes_to(rt: &impl Abort, alloc: Global, row: &str) {
    let (text, wanted) = row.split_once(" => ").expect(rt, row);
    match wanted.split_once(": ") {
        Some((wanted, lines)) => {
            holds(rt, row, text.contains('#'));
            each_line_comes_to(rt, alloc, text, wanted, lines);
        }
        None => text_comes_to(rt, alloc, text, wanted),
    }
}

/// Takes the rows one by one.
fn each_comes_to(rt: &impl Abort, alloc: Global, rows: &str) {
    holds(rt, "a row", !rows.is_empty());
    for row in rows.lines() {
        row_comes_to(rt, alloc, row);
    }
}

const READ: &str = "\
seed 18446744073709551615|script a|done|run a| => read
next 0|script a|done|run a| => read
cycle 1|script a|done|run a| => read
start 9223372036854775807999999999|script a|done|run a| => read
start 9223372036854775807999999999|timeout 0|script a|done|run a| => read
timeout 9223372036854775807999999999|start 0|script a|done|run a| => read
catch off|timeout 1|script a|done|run a| => read
script a|done|script b|spawn abcdefghijklmnopqrstuvwxyzabcdef a|done|run b with a a b| => read
script with|done|run with with with with| => read
script a|abort nobody|drop nobody|join nobody|until 0|panic #!~|done|run a| => read
script a|done|script b|spawn h a|spawn h a|spawn self a|abort self|join self|done|run b| => read
script a|within 340282366920938463463374607431768211455 within|done|run a| => read
script a|stopped g|stopped g|wait g|wait g|done|run a| => read
script a|wait nothing|done|run a| => read
script stop|stopped stop|wait stopped|stop -1 1|done|script wait|done|run stop with wait stop| => read
script a|stopped abcdefghijklmnopqrstuvwxyzabcdef|done|run a| => read
script a|stop 2147483647|stop -2147483648|stop 0 18446744073709551616|done|run a| => read
script a|select abcdefghijklmnopqrstuvwxyzabcdef|select self self|done|run a| => read
script select|select select with last|select g|stopped g|done|run select| => read
";

#[test]
fn read_texts(rt: HostRuntime) {
    each_comes_to(&rt, rt.alloc(), READ);
}

const BROKEN: &str = "\
script a|end => 2 cut
 => 1 norun
script a|end 7|done|run a => 4 cut
script a|done|run a|run a => 4 cut
# tab\there| => 1 byte
| pend| => 2 space
pend | => 1 space
# a  b| => 1 space
#| => 1 place: pend, done
script a|#| => 2 place: script b, run a
script a|done|timeout 1| => 3 place
script a|done|run a|script b| => 4 place
script a|done|run a|run a|#| => 5 place: script a, done
script a|done|run a|runs a| => 4 unknown
seeds 7| => 1 unknown
script a|Sleep 1| => 2 unknown
#| => 1 count: timeout, timeout 1 2, script a b
script a|#| => 2 count: yield 1, draw 1
#| => 1 name: script 9a, script abcdefghijklmnopqrstuvwxyzabcdefg, run a-b
script a|done|run a|run 9| => 4 name
#| => 1 number: timeout 01, timeout +1, timeout -1, timeout 340282366920938463463374607431768211456
script a|#| => 2 number: sleep 1s, end 9223372036854775808, end -9223372036854775809, end -0, end -
script a|sleep 18446744073709551616|end 99999999999999999999| => 3 number
timeout 1|timeout 2| => 2 twice
timeout 1|timeout x| => 2 number
script a|done|script a| => 3 twice
run a| => 1 missing
script a|done|run b| => 3 missing
script a|done|run a|run b| => 4 missing
script a|done|run b|run a| => 3 missing
timeout 9223372036854775808000000000|script a|done|run a| => 4 config
script a| => 2 norun
script a|done|| => 4 norun
";

#[test]
fn first_broken_lines(rt: HostRuntime) {
    each_comes_to(&rt, rt.alloc(), BROKEN);
}

const SETTINGS: &str = "\
seed 7 => 1 cut
start  7| => 1 space
script a|#| => 2 place: seed 1, cycle x
script a|done|next 1| => 3 place
script a|done|run a|start 1| => 4 place
script a|done|run a|run a|timeout x| => 5 place
Seed 7| => 1 unknown
#| => 1 count: seed, next 1 2, cycle, start x 1
#| => 1 number: seed x, next -1, cycle 01, start 1s, seed 18446744073709551616, next 18446744073709551616
#| => 1 number: seed 340282366920938463463374607431768211456, cycle 340282366920938463463374607431768211456
#| => 1 number: start 340282366920938463463374607431768211456
seed 1|seed 1| => 2 twice
next 1|seed 1|next 2| => 3 twice
cycle 0|cycle 1| => 2 twice
start 1|start 1| => 2 twice
seed 1|seed 18446744073709551616| => 2 number
start 1|start x| => 2 number
cycle 0|script a|done|run a| => 4 config
start 9223372036854775808000000000|script a|done|run a| => 4 config
start 9223372036854775807999999999|timeout 1|script a|done|run a| => 5 config
timeout 9223372036854775807999999999|start 1|script a|done|run a| => 5 config
start 340282366920938463463374607431768211455|timeout 1|script a|done|run a| => 5 config
start 1|timeout 340282366920938463463374607431768211455|script a|done|run a| => 5 config
cycle 0|script a|done|run a|run b| => 4 config
cycle 0|script a|done|run b| => 4 missing
cycle 0|script a| => 3 norun
";

#[test]
fn refused_settings(rt: HostRuntime) {
    each_comes_to(&rt, rt.alloc(), SETTINGS);
}

const SUPERVISION: &str = "\
catch on => 1 cut
catch  on| => 1 space
script a|#| => 2 space: end 1 , done , spawn h  a, join  h
script a|catch on| => 2 place
script a|done|#| => 3 place: catch on, join h
script a|done|run a|catch on| => 4 place
#| => 1 place: until 1, panic x, spawn
script a|done|run a with a|drop h| => 4 place
catches on| => 1 unknown
script a|Abort h| => 2 unknown
#| => 1 count: catch, catch on off, run, run 9 a with a
script a|#| => 2 count: until, until x 1, panic, panic two words, spawn 9, spawn h a b, abort, abort self h
script a|#| => 2 count: drop, join h i, within 1, within 1 h i
script a|done|#| => 3 count: run a with, run a a, run a and a
script a|done|run a|run a with| => 4 count
#| => 1 name: catch maybe, catch On, catch 1, run none with a-b, run 9 with none
script a|#| => 2 number: until 340282366920938463463374607431768211456, until 01, within x h
catch on|catch on| => 2 twice
catch on|timeout 1|catch off| => 3 twice
catch on|catch maybe| => 2 name
script a|#| => 2 name: spawn abcdefghijklmnopqrstuvwxyzabcdefg a, spawn 9 none, spawn h 9, abort 9, drop a-b
script a|#| => 2 name: join _h, within x 9
script a|spawn h a| => 2 missing
script a|spawn h b|done|script b|done| => 2 missing
script a|done|#| => 3 missing: run a with a b, run b with a
script a|done|run a|run a with a b| => 4 missing
script a|spawn h a|done| => 2 missing
";

#[test]
fn refused_lines_of_supervision(rt: HostRuntime) {
    each_comes_to(&rt, rt.alloc(), SUPERVISION);
}

const SHUTDOWN_AND_SELECT: &str = "\
script a|# => 2 cut: stop 1, select h
script a|wait g\t| => 2 byte
script a|#| => 2 space: wait g , stop 1  2, select h  i
#| => 1 place: stopped g, wait, select
script a|done|stop x| => 3 place
script a|#| => 2 unknown: Stop 1, selects h
waits g| => 1 unknown
script a|#| => 2 count: stopped, stopped g h, wait, wait 9 1, stop, stop x 1 2, select
script a|#| => 2 name: stopped 9, stopped abcdefghijklmnopqrstuvwxyzabcdefg, wait _g, select 9, select h i 9
script a|#| => 2 name: select abcdefghijklmnopqrstuvwxyzabcdefg h
script a|stop 1| => 3 norun
script a|#| => 2 number: stop last, stop 2147483648, stop -2147483649, stop 4294967296
script a|#| => 2 number: stop 9223372036854775808, stop -0, stop -, stop 01, stop +1, stop 2147483648 1
script a|#| => 2 number: stop 1 340282366920938463463374607431768211456, stop 1 -1, stop 1 01
script a|select h| => 3 norun
";

#[test]
fn refused_lines_of_shutdown_and_select(rt: HostRuntime) {
    each_comes_to(&rt, rt.alloc(), SHUTDOWN_AND_SELECT);
}

/// A comment of so many bytes, as a text.
fn comment(rt: &impl Abort, alloc: Global, length: usize) -> Vec<u8> {
    let mut text = vec![in alloc; b'#'; length].expect(rt, "room");
    text.push(b'\n').expect(rt, "room");
    text
}

/// Stops where that line, or the one after it, is broken otherwise.
fn is_broken(rt: &impl Abort, text: Vec<u8>, alloc: Global, wanted: Kind) {
    let seen = match read_scenario(alloc, text.as_slice()).err() {
        Some(Refusal::Broken(broken)) => Some(broken.kind),
        _ => None,
    };
    same(rt, "how it is broken", seen, Some(wanted));
}

#[test]
fn line_limit(rt: HostRuntime) {
    is_broken(&rt, comment(&rt, rt.alloc(), 4096), rt.alloc(), Kind::NoRun);
    is_broken(&rt, comment(&rt, rt.alloc(), 4097), rt.alloc(), Kind::Long);
}

/// A script of so many sleeps.
fn sleeps(rt: &impl Abort, alloc: Global, steps: usize) -> String {
    let mut text = String::from_str(alloc, "script a\n").expect(rt, "room");
    for _ in 0..steps {
        text.push_str("sleep 1\n").expect(rt, "room");
    }
    text.push_str("done\nrun a\n").expect(rt, "room");
    text
}

/// How many lines the first script has.
fn lines_read(scripts: &ScriptTexts) -> usize {
    if scripts.is_empty() {
        return 0;
    }
    scripts.lines(0).len()
}

#[test]
fn a_mebibyte(rt: HostRuntime) {
    let text = sleeps(&rt, rt.alloc(), 131_069);
    same(&rt, "bytes", text.len(), 1_048_572);
    let scenario = read(&rt, rt.alloc(), text.as_str());
    same(&rt, "lines", lines_read(&scenario.scripts), 131_069);
}

/// Adds a script that spawns the one before it so often.
fn add_spawns(rt: &impl Abort, text: &mut String, script: u32, times: u32) {
    write!(text, "script s{script}\n").expect(rt, "room");
    let before = script.saturating_sub(1);
    for handle in 0..times {
        write!(text, "spawn h{handle} s{before}\n").expect(rt, "room");
    }
    text.push_str("done\n").expect(rt, "room");
}

/// So many scripts, of which each but the first spawns the one before it so often; the last is run, and then the first
/// so often.
fn spawns(rt: &impl Abort, alloc: Global, scripts: u32, times: u32, with: u32) -> String {
    let mut text = String::from_str(alloc, "script s0\nend 0\ndone\n").expect(rt, "room");
    for script in 1..scripts {
        add_spawns(rt, &mut text, script, times);
    }
    let last = scripts.saturating_sub(1);
    write!(text, "run s{last}").expect(rt, "room");
    for name in 0..with {
        let word = if name == 0 { " with s0" } else { " s0" };
        text.push_str(word).expect(rt, "room");
    }
    text.push_str("\n").expect(rt, "room");
    text
}

/// A line before; how many scripts, spawns of each and names behind the run; lines behind; and what comes of that.
type Spawned = (&'static str, (u32, u32, u32), &'static str, &'static str);

const LATE: &str = "timeout 9223372036854775808000000000\n";

const SPAWNED: &[Spawned] = &[
    ("", (4, 46, 501), "", "read"),
    ("", (4, 46, 502), "", "148 tasks"),
    ("", (16, 2, 0), "", "read"),
    ("", (16, 2, 0), "run s15\n", "read"),
    ("", (16, 2, 0), "run s15\nrun s15 with s15\n", "66 tasks"),
    ("", (17, 2, 0), "", "68 tasks"),
    ("", (3_000, 2, 0), "", "12000 tasks"),
    (LATE, (17, 2, 0), "", "69 tasks"),
    (LATE, (16, 2, 0), "", "65 config"),
];

/// Such a text, behind a line and before others.
fn spawned(rt: &impl Abort, alloc: Global, row: &Spawned) -> String {
    let (first, (scripts, times, with), last, _) = *row;
    let spawns = spawns(rt, alloc, scripts, times, with);
    let mut text = String::from_str(alloc, first).expect(rt, "room");
    text.push_str(spawns.as_str()).expect(rt, "room");
    text.push_str(last).expect(rt, "room");
    text
}

#[test]
fn too_many_tasks(rt: HostRuntime) {
    for row in SPAWNED {
        let text = spawned(&rt, rt.alloc(), row);
        let seen = outcome(&rt, rt.alloc(), text.as_bytes());
        is(&rt, "a text of spawns", seen, row.3);
    }
}

/// A script of so many scripts, each with a spawn and a join of a handle of its own, in no order.
fn many_handles(rt: &impl Abort, alloc: Global, handles: u32) -> String {
    let mut text = String::from_str(alloc, "script idle\ndone\nscript main\n").expect(rt, "room");
    for number in 0..handles {
        let handle = number.wrapping_mul(7_919) % 10_007;
        write!(text, "spawn h{handle} idle\n").expect(rt, "room");
    }
    for number in 0..handles {
        write!(text, "join h{number}\n").expect(rt, "room");
    }
    text.push_str("done\nrun main\n").expect(rt, "room");
    text
}

/// Stops where a line is another one than a join of the handle of this number.
fn joins(rt: &impl Abort, alloc: Global, line: &Line, handles: &[ShortName], number: usize) {
    let seen = match *line {
        Line::Join(place) => handles.get(place),
        _ => None,
    };
    let name = format!(in alloc; "h{number}").expect(rt, "room");
    let joined = match seen {
        Some(handle) => handle.as_str() == name.as_str(),
        None => false,
    };
    assert!(rt; joined, "at {number}");
}

#[test]
fn ten_thousand_handles(rt: HostRuntime) {
    let text = many_handles(&rt, rt.alloc(), 10_007);
    let scenario = read(&rt, rt.alloc(), text.as_str());
    drop(text);
    let scripts = &scenario.scripts;
    assert!(rt; scripts.len() == 2);
    let handles = scripts.handles(1);
    same(&rt, "handles", handles.len(), 10_007);
    same(&rt, "handles in order", handles.is_sorted(), true);
    let lines = scripts.lines(1);
    assert!(rt; lines.len() == 20_014);
    same(&rt, "the first line", lines[0], Line::Spawn(0, 0));
    for number in 0..10_007usize {
        joins(&rt, rt.alloc(), &lines[10_007 + number], handles, number);
    }
}

#[test]
fn ten_thousand_scripts(rt: HostRuntime) {
    let text = spawns(&rt, rt.alloc(), 10_000, 1, 0);
    let scenario = read(&rt, rt.alloc(), text.as_str());
    drop(text);
    same(&rt, "scripts", scenario.scripts.len(), 10_000);
    let mut runs = String::new(rt.alloc());
    add_runs(&rt, &mut runs, scenario.runs.as_slice());
    is(&rt, "the run", runs, "run 9999\n");
}
