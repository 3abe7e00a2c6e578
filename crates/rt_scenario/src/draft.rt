// What the lines so far say.
ghost use Rattle.std.specs.Prelude.{◌≡◌, true, false, ◌<◌, ◌≤◌, ◌==◌, not, length, Some, None, Ok, Err, IfSome, IfOk, MatchOption, MatchResult, List, ℕ, [], ◌∷◌, ◌++◌, ◌≢◌, is_some, nat_lt};
ghost use Rattle.std.specs.Option.{option_map};
ghost use Rattle.std.specs.List.{All, list_all};
ghost use Rattle.rt_scenario.specs.Lines.{words_of, words_in};
ghost use Rattle.rt_scenario.specs.Numbers.{number_of, small_value_of, value_of};
ghost use Rattle.rt_scenario.specs.Scenario.{Draft, blank, CanRun, CanRunLine, is_between, is_name, is_placed, is_printable, is_runnable, names_run, once, row, after_line, after_text, after_words, script_row, step_row, sleep_row, until_row, end_row, panic_row, spawn_row, spawned_row, abort_row, handle_row, within_row, stop_row, limited_stop_row, select_row, with_select, done_row, found_row, run_row, script_at, scripts_at};
ghost use Rattle.rt_scenario.specs.Answers.{Answers, Finishes, IsBare, IsSetting, Lacks, found_at, or_missing};
ghost use Rattle.rt_scenario.specs.Indexed.{HasShortName, read};
ghost use Rattle.rt_scenario.specs.Scripts.{tasks_of, tasks_at as total_at};
ghost use Rattle.rt_scenario.specs.Within.{HasPlaces, HavePlaces, IsFree};
ghost use Rattle.rt_scenario.specs.declared.named_line.NamedLine.TheVariants as named_line;
ghost use Rattle.rt_scenario.specs.declared.word.Word.TheVariants as word;

use crate::common::{common_line, joined, opened, spawned};
use crate::kind::Kind;
use crate::let_go::let_go;
use crate::line::Line;
use crate::named_line::NamedLine;
use crate::names::{are_names, name_of, named, text_of};
use crate::numbers;
use crate::open_script::OpenScript;
use crate::scenario::{RunLine, Scenario, ScriptText, Settings};
use crate::script_texts::ScriptTexts;
use crate::short_name::{ShortName, short_name};
use crate::split::{is_passed_over, only_word, run_words, split_word, test_text, two_words};
use crate::stop::Stop;
use crate::tasks::{MAX_TASKS, tasks_at, tasks_of};
use crate::word::{Word, switch_of};
use indexmap::IndexSet;
use rt_base::{Items, MAX_TIME, NoMemory};
use std::alloc::Global;
use std::marker::Model;
use std::mem::{self, size_of};

/// The greatest number of bytes of a line, without its LF.
const LINE_LEN: usize = 4096;

/// About so many bytes a line of a script has. Where there are more lines, their room grows.
const LINE_BYTES: usize = 8;

/// About so many bytes a script has with its spawn and its join. Where there are more scripts, their room grows.
const SCRIPT_BYTES: usize = 64;

/// No room is taken in advance for more than so many bytes.
const MOST_BYTES: usize = 1_048_576;

/// The settings and scripts so far, with the names of the scripts, each at its place, and the tasks of each.
#[derive(Drop)]
pub struct Draft {
    alloc: Global,
    settings: Settings,
    closed: ScriptTexts,
    tasks: Vec<u64>,
    names: IndexSet<ShortName>,
    current: Option<OpenScript>,
    /// Room for the lines of the next script.
    spare: Vec<Line>,
    runs: Vec<RunLine>,
}

impl Model for Draft {
    ghost use Rattle.std.specs.Prelude.{◌≡◌, None, IfSome, length, map};
    ghost use Rattle.std.specs.List.{All};
    ghost use Rattle.rt_scenario.specs.Capped.{capped_tasks};
    ghost use Rattle.rt_scenario.specs.Scenario.{Draft, script_at, CanRunLine};
    ghost use Rattle.rt_scenario.specs.Within.{HavePlaces, IsBegun};

    ghost Value = { Draft };

    ghost view = { λ d. record { settings = d.settings; scripts = d.closed; current = d.current; runs = d.runs.items } };

    ghost invariant = { λ d. (d.names.keys ≡ map (λ s. s.name) d.closed) × (d.tasks.items ≡ capped_tasks d.closed) × All (CanRunLine d.closed d.settings) d.runs.items × IfSome d.current (λ s. script_at d.closed s.name ≡ None) × HavePlaces d.closed × IfSome d.current (IsBegun (length d.closed)) };
}

impl Draft {
    /// Makes a draft without lines, with about the room for what a text of so many bytes holds.
    ///
    /// Memory that is mapped and not used costs nothing, and what has room isn't copied as it grows.
    pub fn for_text(alloc: Global, bytes: usize) -> Result<Draft, NoMemory>
        ensures { IfOk result (λ draft. draft ≡ blank) }
    {
        let bytes = bytes.min(MOST_BYTES);
        let scripts = bytes / SCRIPT_BYTES;
        Ok(Draft {
            alloc,
            settings: Settings {
                seed: None,
                next: None,
                cycle: None,
                start: None,
                timeout: None,
                catch: None,
            },
            closed: ScriptTexts::with_capacity(alloc, scripts, bytes / LINE_BYTES)?,
            tasks: Vec::with_capacity(alloc, scripts)?,
            names: IndexSet::with_capacity(alloc, scripts)?,
            current: None,
            spare: Vec::new(alloc),
            runs: Vec::new(alloc),
        })
    }

    /// Returns the scenario, or `None` where a script isn't closed or nothing is run.
    pub fn finish(self) -> Option<Scenario>
        ensures says { Finishes self result }
        ensures runs { IfSome result (λ s. All (CanRunLine s.scripts s.settings) s.runs) }
        ensures settings { IfSome result (λ s. is_runnable s.settings ≡ true) }
        ensures places { IfSome result (λ s. HavePlaces s.scripts) }
    {
        let Draft {
            alloc: _,
            settings,
            closed,
            tasks,
            names,
            current,
            spare,
            runs,
        } = self;
        if current.is_some() || runs.is_empty() {
            return None;
        }
        let room = tasks.capacity();
        let_go(tasks, room, size_of::<u64>());
        let room = names.capacity();
        let_go(names, room, size_of::<ShortName>());
        let room = spare.capacity();
        let_go(spare, room, size_of::<Line>());
        Some(Scenario {
            settings,
            scripts: closed,
            runs: Items::of(runs),
        })
    }

    /// Takes a line in, with its LF if it has one.
    pub fn take_line(&mut self, line: &[u8]) -> Result<(), Stop>
        requires { 0 < length line.now }
        ensures { Answers (after_line self.old line.now) result self.new }
    {
        let end = line.len() - 1;
        if line[end] == b'\n' {
            self.take_text(&line[..end])
        } else {
            Err(Stop::Breaks(Kind::Cut))
        }
    }

    fn take_text(&mut self, text: &[u8]) -> Result<(), Stop>
        ensures { Answers (after_text self.old text.now) result self.new }
    {
        if self.current.is_some() {
            if let Some(line) = common_line(text) {
                return self.push_plain(line);
            }
            if let Some(name) = joined(text) {
                return self.push(NamedLine::Join(name));
            }
            if let Some((handle, script)) = spawned(text) {
                return self.spawn_named(handle, script);
            }
            if text == b"done".as_slice() {
                return self.close_script();
            }
        } else if self.is_between() {
            if let Some(name) = opened(text) {
                return self.open_named(name);
            }
        }
        if text.len() > LINE_LEN {
            return Err(Stop::Breaks(Kind::Long));
        }
        let tested = test_text(text);
        if !tested.is_printable {
            return Err(Stop::Breaks(Kind::Byte));
        }
        if tested.has_stray_space {
            return Err(Stop::Breaks(Kind::Space));
        }
        if is_passed_over(text) {
            return Ok(());
        }
        self.take_words(text)
    }

    fn take_words(&mut self, text: &[u8]) -> Result<(), Stop>
        requires { list_all is_printable text.now ≡ true }
        ensures { Answers (after_words self.old (words_of text.now)) result self.new }
    {
        let (first, args) = split_word(text);
        let Some(word) = Word::of(first) else {
            return Err(Stop::Breaks(Kind::Unknown));
        };
        if !self.allows(word) {
            return Err(Stop::Breaks(Kind::Place));
        }
        self.take(word, args)
    }

    /// Returns whether a line with this first word is allowed here.
    fn allows(&self, word: Word) -> bool
        ensures { result ≡ is_placed self.now word }
    {
        match word {
            Word::Seed | Word::Next | Word::Cycle | Word::Start | Word::Timeout | Word::Catch =>
                self.is_between() && self.closed.is_empty(),
            Word::Script => self.is_between(),
            Word::Run => self.current.is_none(),
            _ => self.current.is_some(),
        }
    }

    fn is_between(&self) -> bool
        ensures { result ≡ is_between self.now }
    {
        self.current.is_none() && self.runs.is_empty()
    }

    /// Takes a line in, by its first word and what is after it.
    fn take(&mut self, word: Word, args: Option<&[u8]>) -> Result<(), Stop>
        requires placed { is_placed self.old word ≡ true }
        requires printable { list_all (list_all is_printable) (words_in args) ≡ true }
        ensures { Answers (row self.old word (words_in args.entry)) result self.new }
    {
        match word {
            Word::Yield | Word::Draw | Word::Pend | Word::Done => self.take_bare(word, args),
            Word::Seed | Word::Next | Word::Cycle | Word::Start | Word::Timeout | Word::Catch =>
                self.set(word, one(args)?),
            Word::Script => self.open_script(one(args)?),
            Word::Sleep => self.sleep(one(args)?),
            Word::Until => self.until(one(args)?),
            Word::End => self.end(one(args)?),
            Word::Panic => self.panic(one(args)?),
            Word::Spawn => {
                let (handle, script) = two(args)?;
                self.spawn(handle, script)
            }
            Word::Abort => self.abort(one(args)?),
            Word::Drop => self.give_up(one(args)?),
            Word::Join => self.join(one(args)?),
            Word::Within => {
                let (limit, handle) = two(args)?;
                self.within(limit, handle)
            }
            Word::Select => self.select(args),
            Word::Stopped => self.stopped(one(args)?),
            Word::Wait => self.wait(one(args)?),
            Word::Stop => self.shut_down(args),
            Word::Run => self.run(args),
        }
    }

    fn take_bare(&mut self, word: Word, args: Option<&[u8]>) -> Result<(), Stop>
        requires placed { is_placed self.old word ≡ true }
        requires bare { IsBare word }
        ensures { Answers (row self.old word (words_in args.entry)) result self.new }
    {
        if args.is_some() {
            return Err(Stop::Breaks(Kind::Count));
        }
        match word {
            Word::Yield => self.push_plain(Line::Yield),
            Word::Draw => self.push_plain(Line::Draw),
            Word::Pend => self.push_plain(Line::Pend),
            _ => self.close_script(),
        }
    }

    /// Takes a setting in.
    fn set(&mut self, word: Word, value: &[u8]) -> Result<(), Stop>
        requires placed { is_placed self.old word ≡ true }
        requires setting { IsSetting word }
        ensures { Answers (row self.old word (value.now ∷ [])) result self.new }
    {
        let settings = &mut self.settings;
        match word {
            Word::Seed => put(
                &mut settings.seed,
                numbers::small_number_of(value),
                Kind::Number,
            )?,
            Word::Next => put(
                &mut settings.next,
                numbers::small_number_of(value),
                Kind::Number,
            )?,
            Word::Cycle => put(&mut settings.cycle, numbers::number_of(value), Kind::Number)?,
            Word::Start => put(&mut settings.start, numbers::number_of(value), Kind::Number)?,
            Word::Timeout => put(
                &mut settings.timeout,
                numbers::number_of(value),
                Kind::Number,
            )?,
            _ => put(&mut settings.catch, switch_of(value), Kind::Name)?,
        }
        Ok(())
    }

    fn open_script(&mut self, word: &[u8]) -> Result<(), Stop>
        ensures { Answers (script_row self.old word.now) result self.new }
    {
        match name_of(word) {
            Some(name) => self.open_named(name),
            None => Err(Stop::Breaks(Kind::Name)),
        }
    }

    /// Opens the script of this name.
    fn open_named(&mut self, name: &str) -> Result<(), Stop>
        requires name { is_name name.now ≡ true }
        requires short { length name.now ≤ 32 }
        ensures { Answers (script_row self.old name.now) result self.new }
    {
        let name = short_name(name);
        if self.names.contains(&name) {
            return Err(Stop::Breaks(Kind::Twice));
        }
        let alloc = self.alloc;
        let spare = mem::replace(&mut self.spare, Vec::new(alloc));
        self.current = Some(OpenScript::new(alloc, name, spare));
        Ok(())
    }

    fn push(&mut self, line: NamedLine<&str>) -> Result<(), Stop>
        requires open { is_some self.old.current ≡ true }
        requires free { IsFree (length self.old.scripts) (read line) }
        requires short { HasShortName (read line) }
        ensures { Answers (step_row self.old (read line.entry)) result self.new }
    {
        match &mut self.current {
            Some(script) => script.push(line)?,
            None => unreachable!(),
        }
        Ok(())
    }

    /// Takes a line without a name.
    fn push_plain(&mut self, line: Line) -> Result<(), Stop>
        requires open { is_some self.old.current ≡ true }
        requires free { IsFree (length self.old.scripts) (named_line.Plain line) }
        ensures { Answers (step_row self.old (named_line.Plain line)) result self.new }
    {
        self.push(NamedLine::Plain(line))
    }

    fn sleep(&mut self, word: &[u8]) -> Result<(), Stop>
        requires { is_some self.old.current ≡ true }
        ensures { Answers (sleep_row self.old (number_of word.now)) result self.new }
    {
        match numbers::number_of(word) {
            Some(duration) => self.push_plain(Line::Sleep(duration)),
            None => Err(Stop::Breaks(Kind::Number)),
        }
    }

    fn until(&mut self, word: &[u8]) -> Result<(), Stop>
        requires { is_some self.old.current ≡ true }
        ensures { Answers (until_row self.old (number_of word.now)) result self.new }
    {
        match numbers::number_of(word) {
            Some(moment) => self.push_plain(Line::Until(moment)),
            None => Err(Stop::Breaks(Kind::Number)),
        }
    }

    fn end(&mut self, word: &[u8]) -> Result<(), Stop>
        requires { is_some self.old.current ≡ true }
        ensures { Answers (end_row self.old word.now) result self.new }
    {
        if word == b"last".as_slice() {
            return self.push_plain(Line::EndLast);
        }
        match numbers::value_of(word) {
            Some(value) => self.push_plain(Line::End(value)),
            None => Err(Stop::Breaks(Kind::Number)),
        }
    }

    fn panic(&mut self, word: &[u8]) -> Result<(), Stop>
        requires open { is_some self.old.current ≡ true }
        requires printable { list_all is_printable word.now ≡ true }
        ensures { Answers (panic_row self.old word.now) result self.new }
    {
        let word = text_of(self.alloc, word)?;
        match &mut self.current {
            Some(script) => script.push_panic(word)?,
            None => unreachable!(),
        }
        Ok(())
    }

    fn spawn(&mut self, handle: &[u8], script: &[u8]) -> Result<(), Stop>
        requires { is_some self.old.current ≡ true }
        ensures { Answers (spawn_row self.old handle.now script.now) result self.new }
    {
        let handle = named(handle)?;
        let script = named(script)?;
        self.spawn_named(handle, script)
    }

    /// Takes a spawn in, by the names of its handle and its script.
    fn spawn_named(&mut self, handle: &str, script: &str) -> Result<(), Stop>
        requires open { is_some self.old.current ≡ true }
        requires handle { length handle.now ≤ 32 }
        requires script { length script.now ≤ 32 }
        ensures { Answers (spawned_row self.old handle.now (script_at self.old.scripts script.now)) result self.new }
    {
        let place = self.find_named(script)?;
        self.push(NamedLine::Spawn(handle, place))
    }

    fn abort(&mut self, word: &[u8]) -> Result<(), Stop>
        requires { is_some self.old.current ≡ true }
        ensures { Answers (abort_row self.old word.now) result self.new }
    {
        if word == b"self".as_slice() {
            return self.push_plain(Line::AbortSelf);
        }
        let handle = named(word)?;
        self.push(NamedLine::Abort(handle))
    }

    fn give_up(&mut self, word: &[u8]) -> Result<(), Stop>
        requires { is_some self.old.current ≡ true }
        ensures { Answers (handle_row self.old named_line.Drop word.now) result self.new }
    {
        let handle = named(word)?;
        self.push(NamedLine::Drop(handle))
    }

    fn join(&mut self, word: &[u8]) -> Result<(), Stop>
        requires { is_some self.old.current ≡ true }
        ensures { Answers (handle_row self.old named_line.Join word.now) result self.new }
    {
        let handle = named(word)?;
        self.push(NamedLine::Join(handle))
    }

    fn within(&mut self, limit: &[u8], handle: &[u8]) -> Result<(), Stop>
        requires { is_some self.old.current ≡ true }
        ensures { Answers (within_row self.old (number_of limit.now) handle.now) result self.new }
    {
        let handle = named(handle)?;
        match numbers::number_of(limit) {
            Some(limit) => self.push(NamedLine::Within(handle, limit)),
            None => Err(Stop::Breaks(Kind::Number)),
        }
    }

    fn select(&mut self, args: Option<&[u8]>) -> Result<(), Stop>
        requires { is_some self.old.current ≡ true }
        ensures { Answers (row self.old word.Select (words_in args.entry)) result self.new }
    {
        if args.is_none() {
            return Err(Stop::Breaks(Kind::Count));
        }
        if !are_names(args) {
            return Err(Stop::Breaks(Kind::Name));
        }
        match self.current.take() {
            Some(script) => {
                self.current = Some(script.with_select(args)?);
                Ok(())
            }
            None => unreachable!(),
        }
    }

    fn stopped(&mut self, word: &[u8]) -> Result<(), Stop>
        requires { is_some self.old.current ≡ true }
        ensures { Answers (handle_row self.old named_line.Stopped word.now) result self.new }
    {
        let signal = named(word)?;
        self.push(NamedLine::Stopped(signal))
    }

    fn wait(&mut self, word: &[u8]) -> Result<(), Stop>
        requires { is_some self.old.current ≡ true }
        ensures { Answers (handle_row self.old named_line.Wait word.now) result self.new }
    {
        let signal = named(word)?;
        self.push(NamedLine::Wait(signal))
    }

    /// Takes a shutdown in, with its value and the limit that may be after it.
    fn shut_down(&mut self, args: Option<&[u8]>) -> Result<(), Stop>
        requires { is_some self.old.current ≡ true }
        ensures { Answers (row self.old word.Stop (words_in args.entry)) result self.new }
    {
        match two_words(args) {
            Some((value, limit)) => self.stop_within(value, limit),
            None => self.stop_whole(one(args)?),
        }
    }

    /// Takes a shutdown in that is waited for to its end.
    fn stop_whole(&mut self, value: &[u8]) -> Result<(), Stop>
        requires { is_some self.old.current ≡ true }
        ensures { Answers (stop_row self.old (small_value_of value.now)) result self.new }
    {
        match numbers::small_value_of(value) {
            Some(value) => self.push_plain(Line::Stop(value)),
            None => Err(Stop::Breaks(Kind::Number)),
        }
    }

    /// Takes a shutdown in that is waited for at most so long.
    fn stop_within(&mut self, value: &[u8], limit: &[u8]) -> Result<(), Stop>
        requires { is_some self.old.current ≡ true }
        ensures { Answers (limited_stop_row self.old (small_value_of value.now) (number_of limit.now)) result self.new }
    {
        match (numbers::small_value_of(value), numbers::number_of(limit)) {
            (Some(value), Some(limit)) => self.push_plain(Line::StopWithin(value, limit)),
            _ => Err(Stop::Breaks(Kind::Number)),
        }
    }

    fn close_script(&mut self) -> Result<(), Stop>
        ensures { Answers (done_row self.old) result self.new }
    {
        match self.current.take() {
            Some(current) => {
                let script = current.close()?;
                self.declare(script)
            }
            None => Ok(()),
        }
    }

    /// Puts a script after the others.
    fn declare(&mut self, script: ScriptText) -> Result<(), Stop>
        requires absent { script_at self.old.scripts script.name ≡ None }
        requires places { HasPlaces (length self.old.scripts) script }
        requires between { self.old.current ≡ None }
        ensures { Answers (Ok (record self.old { scripts = self.old.scripts ++ script ∷ [] })) result self.new }
    {
        let name = script.name.copy();
        let tasks = tasks_of(self.tasks.as_slice(), script.lines.as_slice());
        self.tasks.reserve(1)?;
        self.names.reserve(1)?;
        self.spare = self.closed.push(script)?;
        match self.names.insert(name) {
            Ok(_) => {}
            // There is room for it.
            Err(_) => unreachable!(),
        }
        self.tasks.push_reserved(tasks);
        Ok(())
    }

    fn run(&mut self, args: Option<&[u8]>) -> Result<(), Stop>
        ensures { Answers (run_row self.old (names_run (words_in args.entry))) result self.new }
    {
        let Some((root, with)) = run_words(args) else {
            return Err(Stop::Breaks(Kind::Count));
        };
        if name_of(root).is_none() || !are_names(with) {
            return Err(Stop::Breaks(Kind::Name));
        }
        let places = self.find_run(root, with)?;
        self.add_run(places)
    }

    /// Runs the scripts at these places.
    fn add_run(&mut self, places: Vec<usize>) -> Result<(), Stop>
        requires places { All (λ place. place < length self.old.scripts) places.items }
        requires some { 0 < length places.items }
        ensures { Answers (found_row self.old (Some places.items)) result self.new }
    {
        if self.has_too_many(places.as_slice()) {
            return Err(Stop::Breaks(Kind::Tasks));
        }
        if !is_runnable(self.settings) {
            return Err(Stop::Breaks(Kind::Config));
        }
        self.runs.reserve(1)?;
        let mut with = places;
        let root = with.remove(0);
        self.runs.push_reserved(RunLine {
            root,
            with: Items::of(with),
        });
        Ok(())
    }

    /// Returns whether the scripts at these places have more tasks than a run may have.
    fn has_too_many(&self, places: &[usize]) -> bool
        ensures { result ≡ nat_lt 100000 (total_at (tasks_of self.now.scripts) places.now) }
    {
        tasks_at(self.tasks.as_slice(), places) > MAX_TASKS
    }

    /// Returns the places of the root's script and of those that the words name.
    fn find_run(&self, root: &[u8], with: Option<&[u8]>) -> Result<Vec<usize>, Stop>
        requires root { is_name root.now ≡ true }
        requires with { list_all is_name (words_in with) ≡ true }
        ensures found { MatchResult result (λ places. scripts_at self.now.scripts (root.now ∷ words_in with.entry) ≡ Some places.items) (Lacks self.now.scripts (root.now ∷ words_in with.entry)) }
        ensures there { IfOk result (λ places. All (λ place. place < length self.now.scripts) places.items) }
        ensures some { IfOk result (λ places. 0 < length places.items) }
    {
        let mut places = Vec::new(self.alloc);
        places.push(self.find(root)?)?;
        self.find_all(with, &mut places)?;
        Ok(places)
    }

    /// Returns the place of the script that the word names.
    fn find(&self, word: &[u8]) -> Result<usize, Kind>
        ensures found { result ≡ found_at self.now.scripts word.now }
        ensures there { IfOk result (λ place. place < length self.now.scripts) }
    {
        match name_of(word) {
            Some(name) => self.find_named(name),
            None => Err(Kind::Name),
        }
    }

    /// Returns the place of the script of this name.
    fn find_named(&self, name: &str) -> Result<usize, Kind>
        requires { length name.now ≤ 32 }
        ensures found { result ≡ or_missing (script_at self.now.scripts name.now) }
        ensures there { IfOk result (λ place. place < length self.now.scripts) }
    {
        match self.names.get_index_of(&short_name(name)) {
            Some(place) => Ok(place),
            None => Err(Kind::Missing),
        }
    }

    /// Puts the places of the scripts that the words name after those that are there.
    fn find_all(&self, words: Option<&[u8]>, places: &mut Vec<usize>) -> Result<(), Stop>
        requires { list_all is_name (words_in words) ≡ true }
        ensures { MatchResult result (λ _. option_map (λ more. places.old.items ++ more) (scripts_at self.now.scripts (words_in words.entry)) ≡ Some places.new.items) (Lacks self.now.scripts (words_in words.entry)) }
    {
        let mut rest = words;
        while let Some(text) = rest {
            let (word, tail) = split_word(text);
            places.push(self.find(word)?)?;
            rest = tail;
        }
        Ok(())
    }
}

fn one<'a>(args: Option<&'a [u8]>) -> Result<&'a [u8], Stop>
    ensures { MatchResult result (λ word. words_in args.entry ≡ word.now ∷ []) (λ stop. (stop ≡ Stop.Breaks Kind.Count) × (length (words_in args.entry) ≢ 1)) }
{
    match only_word(args) {
        Some(word) => Ok(word),
        None => Err(Stop::Breaks(Kind::Count)),
    }
}

fn two<'a>(args: Option<&'a [u8]>) -> Result<(&'a [u8], &'a [u8]), Stop>
    ensures { MatchResult result (λ words. words_in args.entry ≡ words.0.now ∷ words.1.now ∷ []) (λ stop. (stop ≡ Stop.Breaks Kind.Count) × (length (words_in args.entry) ≢ 2)) }
{
    match two_words(args) {
        Some(words) => Ok(words),
        None => Err(Stop::Breaks(Kind::Count)),
    }
}

/// Puts the value of a setting, which is given once at most; `wrong` is the rule that a word without a value breaks.
fn put<T: Copy>(setting: &mut Option<T>, value: Option<T>, wrong: Kind) -> Result<(), Kind>
    ensures { MatchResult result (λ _. once setting.old value wrong ≡ Ok setting.new) (λ kind. once setting.old value wrong ≡ Err kind) }
{
    if value.is_none() {
        return Err(wrong);
    }
    if setting.is_some() {
        return Err(Kind::Twice);
    }
    *setting = value;
    Ok(())
}

/// Returns whether a run can keep the settings.
fn is_runnable(settings: Settings) -> bool
    ensures { result ≡ is_runnable settings }
{
    let start = settings.start.unwrap_or(0);
    let timeout = settings.timeout.unwrap_or(0);
    settings.cycle != Some(0) && start <= MAX_TIME && timeout <= MAX_TIME - start
}
