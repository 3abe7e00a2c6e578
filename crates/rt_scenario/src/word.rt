// The first words of a scenario's lines.
ghost use Rattle.std.specs.Prelude.{◌≡◌};
ghost use Rattle.rt_scenario.specs.Words.{switch_of, word_of};

/// What a line begins with, where that is known.
#[derive(Clone, Copy, Debug, PartialEq, Eq)]
pub enum Word {
    Seed,
    Next,
    Cycle,
    Start,
    Timeout,
    Catch,
    Script,
    Sleep,
    Until,
    Yield,
    Draw,
    Pend,
    End,
    Panic,
    Spawn,
    Abort,
    Drop,
    Join,
    Within,
    Select,
    Stopped,
    Wait,
    Stop,
    Done,
    Run,
}

impl Word {
    /// Returns the word that this text is.
    pub fn of(text: &[u8]) -> Option<Word>
        ensures { result ≡ word_of text.now }
    {
        match text {
            b"seed" => Some(Word::Seed),
            b"next" => Some(Word::Next),
            b"cycle" => Some(Word::Cycle),
            b"start" => Some(Word::Start),
            b"timeout" => Some(Word::Timeout),
            b"catch" => Some(Word::Catch),
            b"script" => Some(Word::Script),
            b"sleep" => Some(Word::Sleep),
            b"until" => Some(Word::Until),
            b"yield" => Some(Word::Yield),
            b"draw" => Some(Word::Draw),
            b"pend" => Some(Word::Pend),
            b"end" => Some(Word::End),
            b"panic" => Some(Word::Panic),
            b"spawn" => Some(Word::Spawn),
            b"abort" => Some(Word::Abort),
            b"drop" => Some(Word::Drop),
            b"join" => Some(Word::Join),
            b"within" => Some(Word::Within),
            b"select" => Some(Word::Select),
            b"stopped" => Some(Word::Stopped),
            b"wait" => Some(Word::Wait),
            b"stop" => Some(Word::Stop),
            b"done" => Some(Word::Done),
            b"run" => Some(Word::Run),
            _ => None,
        }
    }
}

/// Returns whether a setting is on.
pub fn switch_of(word: &[u8]) -> Option<bool>
    ensures { result ≡ switch_of word.now }
{
    if word == b"on".as_slice() {
        Some(true)
    } else if word == b"off".as_slice() {
        Some(false)
    } else {
        None
    }
}
