// Names of scripts and of what they hold, and words of panics.
ghost use Rattle.std.specs.Prelude.{◌≡◌, ◌≤◌, true, false, length, MatchOption, IfOk, IfSome};
ghost use Rattle.std.specs.List.{list_all};
ghost use Rattle.rt_scenario.specs.Answers.{Named};
ghost use Rattle.rt_scenario.specs.Lines.{words_in};
ghost use Rattle.rt_scenario.specs.Scenario.{is_name, is_printable};

use crate::kind::Kind;
use crate::short_name::NAME_LEN;
use crate::split::split_word;
use crate::stop::Stop;
use rt_base::{NoMemory, Text, is_label};
use std::alloc::Global;
use std::str;

/// Returns the name that the word is: a letter and then letters, digits and underscores, at most 32 bytes.
pub fn name_of(word: &[u8]) -> Option<&str>
    ensures name { MatchOption result (is_name word.now ≡ false) (λ name. (is_name word.now ≡ true) × (name.now ≡ word.now)) }
    ensures short { IfSome result (λ name. length name.now ≤ 32) }
{
    if word.len() > NAME_LEN || !is_label(word) {
        return None;
    }
    // A label is ASCII.
    Some(unsafe { str::from_utf8_unchecked(word) })
}

/// Returns whether each of the words is a name.
pub fn are_names(words: Option<&[u8]>) -> bool
    ensures { result ≡ list_all is_name (words_in words.entry) }
{
    let mut rest = words;
    while let Some(text) = rest {
        let (word, tail) = split_word(text);
        if name_of(word).is_none() {
            return false;
        }
        rest = tail;
    }
    true
}

/// Returns the name that the word is.
pub fn named(word: &[u8]) -> Result<&str, Stop>
    ensures named { Named word.now result }
    ensures short { IfOk result (λ name. length name.now ≤ 32) }
{
    match name_of(word) {
        Some(name) => Ok(name),
        None => Err(Stop::Breaks(Kind::Name)),
    }
}

/// Returns the word as a text.
pub fn text_of(alloc: Global, word: &[u8]) -> Result<Text, NoMemory>
    requires { list_all is_printable word.now ≡ true }
    ensures { IfOk result (λ text. text ≡ word.now) }
{
    match str::from_utf8(word) {
        Ok(text) => Ok(Text::of(String::from_str(alloc, text)?)),
        Err(_) => unreachable!(),
    }
}
