// The lines that are most frequent, each known by its bytes at once.
ghost use Rattle.std.specs.Prelude.{◌≡◌, ◌≤◌, true, ℕ, IfSome, is_some, length};
ghost use Rattle.rt_scenario.specs.Scenario.{Draft, after_text, is_between, is_name, script_at, script_row, spawned_row, step_row};
ghost use Rattle.rt_scenario.specs.Within.{IsFree};
ghost use Rattle.rt_scenario.specs.declared.named_line.NamedLine.TheVariants.{Join, Plain};

use crate::line::Line;
use crate::names::name_of;
use crate::numbers::{number_of, value_of};
use crate::split::two_words;

/// So many bytes these lines have at most.
const SHORT: usize = 64;

/// Returns the line that a text of a script is, where it is `yield`, `sleep` with a number or `end` with a value: it
/// needs no other test.
pub fn common_line(text: &[u8]) -> Option<Line>
    ensures line { IfSome result (λ line. (d : Draft) → is_some d.current ≡ true → after_text d text.now ≡ step_row d (Plain line)) }
    ensures free { IfSome result (λ line. (scripts : ℕ) → IsFree scripts (Plain line)) }
{
    if text.len() > SHORT {
        return None;
    }
    match text {
        b"yield" => Some(Line::Yield),
        [b's', b'l', b'e', b'e', b'p', b' ', number @ ..] => Some(Line::Sleep(number_of(number)?)),
        _ => end_line(text),
    }
}

fn end_line(text: &[u8]) -> Option<Line>
    requires { length text.now ≤ 64 }
    ensures line { IfSome result (λ line. (d : Draft) → is_some d.current ≡ true → after_text d text.now ≡ step_row d (Plain line)) }
    ensures free { IfSome result (λ line. (scripts : ℕ) → IsFree scripts (Plain line)) }
{
    match text {
        [b'e', b'n', b'd', b' ', value @ ..] => Some(Line::End(value_of(value)?)),
        _ => None,
    }
}

/// Returns the name of the handle that a text of a script joins, where it is `join` with a name: it needs no other test.
pub fn joined(text: &[u8]) -> Option<&str>
    ensures short { IfSome result (λ name. length name.now ≤ 32) }
    ensures line { IfSome result (λ name. (d : Draft) → is_some d.current ≡ true → after_text d text.now ≡ step_row d (Join name.now)) }
{
    match text {
        [b'j', b'o', b'i', b'n', b' ', name @ ..] => name_of(name),
        _ => None,
    }
}

/// Returns the names of the handle and of the script, where a text of a script is `spawn` with two names: it needs no
/// other test.
pub fn spawned(text: &[u8]) -> Option<(&str, &str)>
    ensures line { IfSome result (λ names. (d : Draft) → is_some d.current ≡ true → after_text d text.now ≡ spawned_row d names.0.now (script_at d.scripts names.1.now)) }
    ensures short { IfSome result (λ names. (length names.0.now ≤ 32) × (length names.1.now ≤ 32)) }
{
    if text.len() > SHORT {
        return None;
    }
    match text {
        [b's', b'p', b'a', b'w', b'n', b' ', rest @ ..] => {
            let (handle, script) = two_words(Some(rest))?;
            Some((name_of(handle)?, name_of(script)?))
        }
        _ => None,
    }
}

/// Returns the name of the script that a text opens, where it is `script` with a name: outside of scripts and runs it
/// needs no other test.
pub fn opened(text: &[u8]) -> Option<&str>
    ensures name { IfSome result (λ name. is_name name.now ≡ true) }
    ensures short { IfSome result (λ name. length name.now ≤ 32) }
    ensures line { IfSome result (λ name. (d : Draft) → is_between d ≡ true → after_text d text.now ≡ script_row d name.now) }
{
    match text {
        [b's', b'c', b'r', b'i', b'p', b't', b' ', name @ ..] => name_of(name),
        _ => None,
    }
}
