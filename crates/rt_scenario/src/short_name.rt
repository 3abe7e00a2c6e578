// Names of scripts, handles and signals.
ghost use Rattle.std.specs.Prelude.{◌≡◌, ◌≤◌, length};

use rt_base::ShortText;

/// The greatest number of bytes of a name.
pub const NAME_LEN: usize = 32;

/// The name of a script, a handle or a signal, at most 32 bytes that are kept in place: a scenario may have many, and
/// none takes a block of memory for its name.
pub type ShortName = ShortText<NAME_LEN>;

/// Returns this name, of at most 32 bytes, kept in place.
#[inline(always)]
pub fn short_name(name: &str) -> ShortName
    requires { length name.now ≤ 32 }
    ensures { result ≡ name.now }
{
    match ShortText::of(name) {
        Some(name) => name,
        None => unreachable!(),
    }
}
