// Why a line of a scenario is refused.
ghost use Rattle.std.specs.Prelude.{Some};
ghost use Rattle.rt_scenario.specs.KindWords.{kind_word};

use std::fmt;

/// The rule that the first broken line of a scenario breaks. Rules are tested in this order, but that the first word is
/// known is tested before whether the line is allowed there.
#[derive(Clone, Copy, Debug, PartialEq, Eq)]
pub enum Kind {
    /// The last line has no LF.
    Cut,
    /// The line has more than 4,096 bytes.
    Long,
    /// A byte isn't within 0x20 to 0x7E.
    Byte,
    /// A space begins or ends the line, or two are next to each other.
    Space,
    /// The line isn't allowed there.
    Place,
    /// No line has this first word.
    Unknown,
    /// The number of words.
    Count,
    /// A word isn't a name, or it isn't `on` or `off` where one of these is due.
    Name,
    /// A word isn't a number, or it is past a limit.
    Number,
    /// The setting or the script comes twice.
    Twice,
    /// A script isn't declared above.
    Missing,
    /// The run has too many tasks.
    Tasks,
    /// The settings can't be run.
    Config,
    /// A script isn't closed, or nothing is run.
    NoRun,
}

impl fmt::Display for Kind {
    ghost output = { λ kind. Some (kind_word kind) };

    fn fmt<W: fmt::Write>(&self, f: &mut fmt::Formatter<W>) -> fmt::Result {
        f.write_str(match self {
            Kind::Cut => "cut",
            Kind::Long => "long",
            Kind::Byte => "byte",
            Kind::Space => "space",
            Kind::Place => "place",
            Kind::Unknown => "unknown",
            Kind::Count => "count",
            Kind::Name => "name",
            Kind::Number => "number",
            Kind::Twice => "twice",
            Kind::Missing => "missing",
            Kind::Tasks => "tasks",
            Kind::Config => "config",
            Kind::NoRun => "norun",
        })
    }
}
