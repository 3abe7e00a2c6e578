// The scripts of a scenario.
ghost use Rattle.std.specs.Prelude.{◌≡◌, ◌<◌, ◌++◌, ◌∷◌, ◌==◌, [], IfOk, OnErr, OnOk, length};
ghost use Rattle.rt_scenario.specs.Texts.{choices_in, handles_in, text_at, panic_words_in};

use crate::line::Line;
use crate::lists::Lists;
use crate::scenario::ScriptText;
use crate::short_name::ShortName;
use rt_base::{Items, NoMemory, Text};
use std::alloc::Global;
use std::marker::Model;

/// What a script has beside its lines.
#[derive(Debug, Drop)]
pub struct Parts {
    name: ShortName,
    more: Option<Box<More>>,
}

/// What a script has beside its lines and its name. Most have none of it, and so it is behind a pointer.
#[derive(Debug, Drop)]
pub struct More {
    handles: Items<ShortName>,
    words: Items<Text>,
    choices: Items<usize>,
}

impl More {
    /// Returns what a script has of this, where that is anything.
    fn kept(
        alloc: Global,
        handles: Items<ShortName>,
        words: Items<Text>,
        choices: Items<usize>,
    ) -> Result<Option<Box<More>>, NoMemory>
        ensures handles { IfOk result (λ more. handles_in more ≡ handles) }
        ensures words { IfOk result (λ more. panic_words_in more ≡ words) }
        ensures choices { IfOk result (λ more. choices_in more ≡ choices) }
    {
        match (handles.as_slice(), words.as_slice(), choices.as_slice()) {
            ([], [], []) => Ok(None),
            _ => {
                let more = More {
                    handles,
                    words,
                    choices,
                };
                Ok(Some(Box::new(alloc, more)?))
            }
        }
    }
}

/// The scripts of a scenario, in order.
///
/// The lines of all are in one block, apart from the other parts of each script: many scripts are read in turn, and mostly
/// nothing but a line of each, where its other parts would be one more miss of the cache. Short scripts are next to one another
/// so, without unused room between them. Contracts see each script as a whole.
#[derive(Debug, Drop)]
pub struct ScriptTexts {
    parts: Vec<Parts>,
    lines: Lists<Line>,
}

impl Model for ScriptTexts {
    ghost use Rattle.std.specs.Prelude.{◌≡◌, List, length};
    ghost use Rattle.rt_scenario.specs.Texts.{wholes};
    ghost use Rattle.rt_scenario.specs.declared.scenario.ScriptText.{ScriptText};

    ghost Value = { List ScriptText };

    ghost view = { λ s. wholes s.parts.items s.lines };

    ghost invariant = { λ s. length s.lines ≡ length s.parts.items };
}

#[tactic(auto, using(crate::proofs::Texts::text_laws))]
impl ScriptTexts {
    /// Makes a list of no scripts, with room for so many, of so many lines together.
    pub(crate) fn with_capacity(
        alloc: Global,
        scripts: usize,
        lines: usize,
    ) -> Result<ScriptTexts, NoMemory>
        ensures { IfOk result (λ texts. texts ≡ []) }
    {
        Ok(ScriptTexts {
            parts: Vec::with_capacity(alloc, scripts)?,
            lines: Lists::with_capacity(alloc, scripts, lines)?,
        })
    }

    /// Puts a script after the others, and returns the room of its lines, which were copied.
    pub(crate) fn push(&mut self, script: ScriptText) -> Result<Vec<Line>, NoMemory>
        ensures ok { OnOk result (self.new ≡ self.old ++ script ∷ []) }
        ensures err { OnErr result (self.new ≡ self.old) }
    {
        let ScriptText {
            name,
            lines,
            handles,
            words,
            choices,
        } = script;
        let more = More::kept(*self.parts.allocator(), handles, words, choices)?;
        self.parts.reserve(1)?;
        self.lines.push(lines.as_slice())?;
        self.parts.push_reserved(Parts { name, more });
        Ok(lines.into_inner())
    }

    /// Returns how many scripts there are.
    pub fn len(&self) -> usize
        ensures { result ≡ length self.now }
    {
        self.parts.len()
    }

    /// Returns whether there is no script.
    pub fn is_empty(&self) -> bool
        ensures { result ≡ (length self.now == 0) }
    {
        self.len() == 0
    }

    /// Returns the name of the script at a place, which must be there.
    pub fn name(&self, place: usize) -> &str
        requires { place < length self.now }
        ensures { result.now ≡ (text_at self.now place).name }
    {
        self.parts[place].name.as_str()
    }

    /// Returns the lines of the script at a place, which must be there.
    pub fn lines(&self, place: usize) -> &[Line]
        requires { place < length self.now }
        ensures { result.now ≡ (text_at self.now place).lines }
    {
        self.lines.list(place)
    }

    /// Returns the names of the handles and signals of the script at a place, which must be there, in byte order.
    pub fn handles(&self, place: usize) -> &[ShortName]
        requires { place < length self.now }
        ensures { result.now ≡ (text_at self.now place).handles }
    {
        match &self.parts[place].more {
            Some(more) => more.handles.as_slice(),
            None => &[],
        }
    }

    /// Returns the words of the panics of the script at a place, which must be there, in the order of the lines.
    pub fn words(&self, place: usize) -> &[Text]
        requires { place < length self.now }
        ensures { result.now ≡ (text_at self.now place).words }
    {
        match &self.parts[place].more {
            Some(more) => more.words.as_slice(),
            None => &[],
        }
    }

    /// Returns the places of the names that the choices of the script at a place take, which must be there, in the
    /// order of the lines.
    pub fn choices(&self, place: usize) -> &[usize]
        requires { place < length self.now }
        ensures { result.now ≡ (text_at self.now place).choices }
    {
        match &self.parts[place].more {
            Some(more) => more.choices.as_slice(),
            None => &[],
        }
    }
}
