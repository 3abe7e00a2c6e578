// A label.
ghost use Rattle.std.specs.Prelude.{◌≡◌, IfOk};

use rt_base::{NoMemory, Text};
use std::alloc::Global;

/// Returns a label of this key and this value.
pub fn label(alloc: Global, key: &str, value: &str) -> Result<(Text, Text), NoMemory>
    ensures { IfOk result (λ label. label ≡ (key.now, value.now)) }
{
    let key = Text::of(String::from_str(alloc, key)?);
    let value = Text::of(String::from_str(alloc, value)?);
    Ok((key, value))
}
