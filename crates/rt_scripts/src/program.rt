//! The scripts of a scenario, shared by all its tasks.

ghost use Rattle.std.specs.Prelude.{◌≡◌, ◌<◌, IfOk, IfSome, length};
ghost use Rattle.rt_scenario.specs.Texts.{text_at};
ghost use Rattle.rt_scenario.specs.Within.{HavePlaces, IsWithin};
ghost use Rattle.rt_scripts.specs.Program.{name_at, word_at, choice_at, line_at};

use rt_base::{NoMemory, Text};
use rt_scenario::{Line, ScriptTexts};
use std::alloc::Global;
use std::marker::Model;
use std::rc::Rc;

/// The scripts of a scenario, in order, shared by all its tasks. The places that their lines hold are within their
/// lists. All lines are in one block, apart from names and words: most polls read lines alone, and short ones are
/// side by side in the cache.
#[derive(Drop)]
pub struct Program {
    scripts: Rc<ScriptTexts>,
    alloc: Global,
}

impl Model for Program {
    ghost use Rattle.std.specs.Prelude.{List};
    ghost use Rattle.rt_scenario.specs.Within.{HavePlaces};
    ghost use Rattle.rt_scenario.specs.declared.scenario.ScriptText.{ScriptText};

    ghost Value = { List ScriptText };

    ghost view = { λ p. p.scripts.value };

    ghost invariant = { λ p. HavePlaces p.scripts.value };
}

impl Program {
    /// Makes a program of these scripts.
    pub fn new(alloc: Global, scripts: ScriptTexts) -> Result<Program, NoMemory>
        requires { HavePlaces scripts }
        ensures { IfOk result (λ program. program ≡ scripts) }
    {
        Ok(Program {
            scripts: Rc::new(alloc, scripts)?,
            alloc,
        })
    }

    /// Returns the same program, for another task.
    pub fn share(&self) -> Result<Program, NoMemory>
        ensures { IfOk result (λ program. program ≡ self.now) }
    {
        Ok(Program {
            scripts: self.scripts.clone()?,
            alloc: self.alloc,
        })
    }

    /// Returns the allocator of the program.
    pub fn allocator(&self) -> Global {
        self.alloc
    }

    /// The lines of a script.
    fn lines_of(&self, script: usize) -> &[Line]
        requires { script < length self.now }
        ensures lines { result.now ≡ (text_at self.now script).lines }
        ensures places { HavePlaces self.now }
    {
        self.scripts.as_ref().lines(script)
    }

    /// Returns the name of a script.
    pub fn script_name(&self, script: usize) -> &str
        requires { script < length self.now }
        ensures { result.now ≡ (text_at self.now script).name }
    {
        self.scripts.as_ref().name(script)
    }

    /// Returns how many lines a script has.
    pub fn line_count(&self, script: usize) -> usize
        requires { script < length self.now }
        ensures { result ≡ length (text_at self.now script).lines }
    {
        self.lines_of(script).len()
    }

    /// Returns the line at a place of a script, if there is one.
    pub fn line(&self, script: usize, place: usize) -> Option<Line>
        requires { script < length self.now }
        ensures line { result ≡ line_at (text_at self.now script) place }
        ensures within { IfSome result (λ line. IsWithin (length self.now) (text_at self.now script) line) }
    {
        // Of a yield and an end no more is read than they have: a line may reach into another line of the cache.
        match self.lines_of(script).get(place)? {
            Line::Yield => Some(Line::Yield),
            Line::End(value) => Some(Line::End(*value)),
            line => Some(*line),
        }
    }

    /// Returns the name of a handle of a script.
    pub fn handle_name(&self, script: usize, handle: usize) -> &str
        requires script { script < length self.now }
        requires handle { handle < length (text_at self.now script).handles }
        ensures { result.now ≡ name_at (text_at self.now script) handle }
    {
        self.scripts.as_ref().handles(script)[handle].as_str()
    }

    /// Returns the place of a name that the choices of a script take, or 0 for one past the last.
    pub fn choice(&self, script: usize, at: usize) -> usize
        requires { script < length self.now }
        ensures { result ≡ choice_at (text_at self.now script) at }
    {
        let choices = self.scripts.as_ref().choices(script);
        choices.get(at).copied().unwrap_or(0)
    }

    /// Returns a copy of a word of a script's panics.
    pub fn word(&self, script: usize, at: usize) -> Result<Text, NoMemory>
        requires script { script < length self.now }
        requires word { at < length (text_at self.now script).words }
        ensures { IfOk result (λ word. word ≡ word_at (text_at self.now script) at) }
    {
        self.scripts.as_ref().words(script)[at].clone_value()
    }
}
