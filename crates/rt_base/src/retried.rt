// Reads and writes that are made again where a signal cuts them short.
ghost use Rattle.std.specs.Prelude.{◌≡◌, ◌↔◌, ◌<◌, ◌≤◌, length, IfOk, IsOk, OnErr};
ghost use Rattle.std.specs.IoError.{error_kind};
ghost use Rattle.std.specs.Io.KnownBytes.{ReadConsumes, WriteAppends};
ghost use Rattle.rt_base.specs.InMemory.{counted_up};
ghost use Rattle.rt_base.specs.Outside.{HasRisen};

use crate::failed::Failed;
use std::io::{Error, ErrorKind, Read, Write};

/// How many calls in a row a signal may cut short before the last of them counts as failed.
const MOST_TRIES: u32 = 64;

/// Reads once, and again where a signal cut the read short, and returns how many bytes were read. Each error raises the
/// count.
///
/// What was read is what the reader gave: a read that failed took nothing.
pub fn read_retried<R: Read>(
    reader: &mut R,
    errors: &mut u64,
    buf: &mut [u8],
) -> Result<usize, Failed>
    ensures bound { IfOk result (λ n. n ≤ length buf.old) }
    ensures bytes { ReadConsumes (R.remaining reader.old) (R.remaining reader.new) result buf.new }
    ensures counted { errors.old ≤ errors.new }
    ensures cause { OnErr result (HasRisen errors.old errors.new) }
{
    for _ in 0..MOST_TRIES {
        match reader.read(buf) {
            Ok(count) => return Ok(count),
            Err(error) => count_error(errors, &error)?,
        }
    }
    Err(Failed)
}

/// Writes once, and again where a signal cut the write short, and returns how many bytes were written. Each error
/// raises the count, as does a write of nothing of a piece that isn't empty.
///
/// What the writer holds grows by what was written: a write that failed wrote nothing.
pub fn write_retried<W: Write>(
    writer: &mut W,
    errors: &mut u64,
    piece: &[u8],
) -> Result<usize, Failed>
    ensures bound { IfOk result (λ n. n ≤ length piece.now) }
    ensures some { IfOk result (λ n. 0 < length piece.now → 0 < n) }
    ensures bytes { WriteAppends (W.contents writer.old) (W.contents writer.new) result piece.now }
    ensures counted { errors.old ≤ errors.new }
    ensures cause { OnErr result (HasRisen errors.old errors.new) }
{
    if piece.is_empty() {
        return Ok(0);
    }
    for _ in 0..MOST_TRIES {
        match writer.write(piece) {
            Ok(0) => {
                *errors = errors.saturating_add(1);
                return Err(Failed);
            }
            Ok(count) => return Ok(count),
            Err(error) => count_error(errors, &error)?,
        }
    }
    Err(Failed)
}

/// Raises the count, and fails unless a signal caused the error.
fn count_error(errors: &mut u64, error: &Error) -> Result<(), Failed>
    ensures exact { errors.new ≡ counted_up errors.old }
    ensures counted { errors.old ≤ errors.new }
    ensures raised { HasRisen errors.old errors.new }
    ensures again { IsOk result ↔ (error_kind error.now ≡ ErrorKind.Interrupted) }
{
    *errors = errors.saturating_add(1);
    match error.kind() {
        ErrorKind::Interrupted => Ok(()),
        _ => Err(Failed),
    }
}
