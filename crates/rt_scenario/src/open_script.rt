// A script whose `done` hasn't come.
ghost use Rattle.std.specs.Prelude.{◌≡◌, ◌≤◌, true, [], ◌∷◌, IfOk, OnOk, OnErr, length, map, slice_index};
ghost use Rattle.std.specs.List.{All, list_all};
ghost use Rattle.rt_scenario.specs.Indexed.{HasIndex, HasShortName, placed_at, read};
ghost use Rattle.rt_scenario.specs.Scripts.{closed_script};
ghost use Rattle.rt_scenario.specs.Lines.{words_in};
ghost use Rattle.rt_scenario.specs.Within.{IsClear};
ghost use Rattle.rt_scenario.specs.Scenario.{is_name, with_choices, with_line, with_panic, with_select};

use crate::handles::Handles;
use crate::let_go::let_go;
use crate::line::Line;
use crate::named_line::{NamedLine, indexed, place_at, placed};
use crate::names::name_of;
use crate::scenario::ScriptText;
use crate::short_name::ShortName;
use crate::split::split_word;
use rt_base::{Items, NoMemory, Text};
use std::alloc::Global;
use std::marker::Model;
use std::mem::size_of;

/// The lines of a script so far, with the indices of the names of what they hold, these names, the words of its panics, and
/// the indices of the names that its choices take.
#[derive(Drop)]
pub struct OpenScript {
    name: ShortName,
    lines: Vec<Line>,
    handles: Handles,
    words: Vec<Text>,
    choices: Vec<usize>,
}

impl Model for OpenScript {
    ghost use Rattle.std.specs.Prelude.{◌≡◌, ◌<◌, length, map};
    ghost use Rattle.std.specs.List.{All};
    ghost use Rattle.rt_scenario.specs.Indexed.{HasIndex, in_order, name_at, named_by};
    ghost use Rattle.rt_scenario.specs.Scripts.{Begun, all_names};

    ghost Value = { Begun };

    ghost view = { λ s. record { name = s.name; lines = map (named_by s.handles) s.lines.items; words = s.words.items; choices = map (name_at s.handles) s.choices.items } };

    ghost invariant = { λ s. All (HasIndex (length s.handles)) s.lines.items × All (λ index. index < length s.handles) s.choices.items × (all_names (map (named_by s.handles) s.lines.items) (map (name_at s.handles) s.choices.items) ≡ in_order s.handles) };
}

impl OpenScript {
    /// Opens a script without lines, which keeps them in the room of `spare`.
    pub fn new(alloc: Global, name: ShortName, spare: Vec<Line>) -> OpenScript
        ensures { result ≡ record { name = name; lines = []; words = []; choices = [] } }
    {
        let mut lines = spare;
        lines.clear();
        OpenScript {
            name,
            lines,
            handles: Handles::new(alloc),
            words: Vec::new(alloc),
            choices: Vec::new(alloc),
        }
    }

    pub fn push(&mut self, line: NamedLine<&str>) -> Result<(), NoMemory>
        requires clear { IsClear (read line) }
        requires short { HasShortName (read line) }
        ensures line { OnOk result (self.new ≡ with_line (read line.entry) self.old) }
        ensures refused { OnErr result (self.new ≡ self.old) }
    {
        self.lines.reserve(1)?;
        let line = indexed(line, &mut self.handles)?;
        self.lines.push_reserved(line);
        Ok(())
    }

    pub fn push_panic(&mut self, word: Text) -> Result<(), NoMemory>
        ensures line { OnOk result (self.new ≡ with_panic word self.old) }
        ensures refused { OnErr result (self.new ≡ self.old) }
    {
        let line = Line::Panic(self.words.len());
        self.lines.reserve(1)?;
        self.words.push(word)?;
        self.lines.push_reserved(line);
        Ok(())
    }

    /// Returns the script with a choice among what these words name.
    pub fn with_select(self, names: Option<&[u8]>) -> Result<OpenScript, NoMemory>
        requires { list_all is_name (words_in names) ≡ true }
        ensures { IfOk result (λ script. script ≡ with_select (words_in names.entry) self) }
    {
        let mut script = self;
        let start = script.count_choices();
        let mut rest = names;
        while let Some(text) = rest {
            let (word, tail) = split_word(text);
            match name_of(word) {
                Some(name) => script.push_choice(name)?,
                None => unreachable!(),
            }
            rest = tail;
        }
        let past = script.count_choices();
        script.push(NamedLine::Plain(Line::Select(start, past)))?;
        Ok(script)
    }

    fn count_choices(&self) -> usize
        ensures { result ≡ length self.now.choices }
    {
        self.choices.len()
    }

    fn push_choice(&mut self, name: &str) -> Result<(), NoMemory>
        requires { length name.now ≤ 32 }
        ensures { OnOk result (self.new ≡ with_choices (name.now ∷ []) self.old) }
    {
        self.choices.reserve(1)?;
        let index = self.handles.index_of(name)?;
        self.choices.push_reserved(index);
        Ok(())
    }

    /// Returns the script as it is now, with the places of its names.
    pub fn close(self) -> Result<ScriptText, NoMemory>
        ensures { IfOk result (λ closed. closed ≡ closed_script self) }
    {
        let OpenScript {
            name,
            lines,
            handles,
            words,
            choices,
        } = self;
        let (handles, places) = handles.in_order()?;
        let mut lines = lines;
        place_lines(lines.as_mut_slice(), places.as_slice());
        let mut choices = choices;
        place_choices(choices.as_mut_slice(), places.as_slice());
        let room = places.capacity();
        let_go(places, room, size_of::<usize>());
        Ok(ScriptText {
            name,
            lines: Items::of(lines),
            handles: Items::of(handles),
            words: Items::of(words),
            choices: Items::of(choices),
        })
    }
}

/// Puts the places of the names in for their indices.
fn place_lines(lines: &mut [Line], places: &[usize])
    requires { All (HasIndex (length places.now)) lines.old }
    ensures { lines.new ≡ map (placed_at places.now) lines.old }
{
    if places.is_empty() {
        return;
    }
    for line in lines.iter_mut() {
        *line = placed(*line, places);
    }
}

fn place_choices(choices: &mut [usize], places: &[usize])
    ensures { choices.new ≡ map (slice_index places.now) choices.old }
{
    for choice in choices.iter_mut() {
        *choice = place_at(places, *choice);
    }
}
