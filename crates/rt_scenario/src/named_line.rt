// A line whose name has no place yet.
ghost use Rattle.std.specs.Prelude.{◌≡◌, length, slice_index, IfOk, OnOk, OnErr};
ghost use Rattle.rt_scenario.specs.Indexed.{HasIndex, HasShortName, named_by, placed_at, read, with_name};
ghost use Rattle.rt_scenario.specs.Scripts.{handle_of};
ghost use Rattle.rt_scenario.specs.Within.{IsClear};

use crate::handles::Handles;
use crate::line::Line;
use rt_base::{Nanos, NoMemory};

/// What a line says, where an `N` is the name of its handle or signal.
#[derive(Clone, Copy)]
pub enum NamedLine<N> {
    /// A line without a name.
    Plain(Line),
    /// A spawn of the script at this place.
    Spawn(N, usize),
    Abort(N),
    Drop(N),
    Join(N),
    /// A join that takes at most so long.
    Within(N, Nanos),
    Stopped(N),
    Wait(N),
}

/// Returns the line with the index of its name, which is put after the others if it is new.
pub fn indexed(line: NamedLine<&str>, handles: &mut Handles) -> Result<Line, NoMemory>
    requires clear { IsClear (read line) }
    requires short { HasShortName (read line) }
    ensures line { IfOk result (λ indexed. named_by handles.new indexed ≡ read line.entry) }
    ensures index { IfOk result (HasIndex (length handles.new)) }
    ensures names { OnOk result (handles.new ≡ with_name handles.old (handle_of (read line.entry))) }
    ensures refused { OnErr result (handles.new ≡ handles.old) }
{
    match line {
        NamedLine::Plain(line) => Ok(line),
        NamedLine::Spawn(name, script) => Ok(Line::Spawn(handles.index_of(name)?, script)),
        NamedLine::Abort(name) => Ok(Line::Abort(handles.index_of(name)?)),
        NamedLine::Drop(name) => Ok(Line::Drop(handles.index_of(name)?)),
        NamedLine::Join(name) => Ok(Line::Join(handles.index_of(name)?)),
        NamedLine::Within(name, limit) => Ok(Line::Within(handles.index_of(name)?, limit)),
        NamedLine::Stopped(name) => Ok(Line::Stopped(handles.index_of(name)?)),
        NamedLine::Wait(name) => Ok(Line::Wait(handles.index_of(name)?)),
    }
}

/// Returns the line with the place of its name, by the places of the names.
pub fn placed(line: Line, places: &[usize]) -> Line
    ensures { result ≡ placed_at places.now line }
{
    match line {
        Line::Spawn(index, script) => Line::Spawn(place_at(places, index), script),
        Line::Abort(index) => Line::Abort(place_at(places, index)),
        Line::Drop(index) => Line::Drop(place_at(places, index)),
        Line::Join(index) => Line::Join(place_at(places, index)),
        Line::Within(index, limit) => Line::Within(place_at(places, index), limit),
        Line::Stopped(index) => Line::Stopped(place_at(places, index)),
        Line::Wait(index) => Line::Wait(place_at(places, index)),
        _ => line,
    }
}

/// Returns the place of the name of this index.
pub fn place_at(places: &[usize], index: usize) -> usize
    ensures { result ≡ slice_index places.now index }
{
    places.get(index).copied().unwrap_or(0)
}
