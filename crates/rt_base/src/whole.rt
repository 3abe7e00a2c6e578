// Whole inputs and whole pieces over sources and sinks that move a few bytes a call.
ghost use Rattle.std.specs.Prelude.{◌≡◌, ◌<◌, ◌≤◌, ℕ, List, [], Some, Err, length, vec_len, take, IfOk, IfSome, IfErr, ◌++◌, ◌+◌, ◌≢◌, OnOk, OnErr};
ghost use Rattle.rt_base.specs.Outside.{HasRisen, Appends, Takes};

use crate::failed::Failed;
use crate::sink::Sink8;
use crate::source::Source;
use std::alloc::{AllocError, Global};

/// How many bytes `read_whole` asks for at once.
const PIECE: usize = 65536;

/// Why an input wasn't read whole.
#[derive(Clone, Copy, Debug, PartialEq, Eq)]
pub enum Unread {
    /// A read failed.
    Failed,
    /// There are more bytes than the limit.
    TooLong,
    NoMemory,
}

impl From<AllocError> for Unread {
    ghost use Rattle.std.specs.Prelude.{◌≡◌};
    ghost use Rattle.rt_base.specs.declared.whole.Unread.TheVariants.{NoMemory};

    ghost from_gives = { λ _ e. e ≡ NoMemory };

    fn from(_: AllocError) -> Unread {
        Unread::NoMemory
    }
}

/// Reads to the end of the input, and returns its bytes, at most `limit` of them.
///
/// Errors: `Failed` after a read that failed, `TooLong` where there are more bytes than the limit, `NoMemory`.
pub fn read_whole<S: Source>(alloc: Global, source: &mut S, limit: usize) -> Result<Vec<u8>, Unread>
    ensures within { IfOk result (λ bytes. vec_len bytes ≤ limit) }
    ensures whole { IfOk result (λ bytes. IfSome (S.left source.old) (λ left. bytes.items ≡ left)) }
    ensures ended { OnOk result (IfSome (S.left source.old) (λ _. S.left source.new ≡ Some [])) }
    ensures too_long { result ≡ Err Unread.TooLong → IfSome (S.left source.old) (λ left. limit < length left) }
    ensures cause { result ≡ Err Unread.Failed → HasRisen (S.faults source.old) (S.faults source.new) }
    ensures counted { S.faults source.old ≤ S.faults source.new }
{
    let mut piece = empty_piece(alloc)?;
    let mut bytes = Vec::new(alloc);
    while bytes.len() <= limit {
        if read_piece(source, piece.as_mut_slice(), &mut bytes)? == 0 {
            return Ok(bytes);
        }
    }
    Err(Unread::TooLong)
}

// Reads once, appends what came and returns how many bytes that were.
fn read_piece<S: Source>(
    source: &mut S,
    piece: &mut [u8],
    bytes: &mut Vec<u8>,
) -> Result<usize, Unread>
    ensures taken { IfOk result (λ n. Takes (S.left source.old) (length piece.old) n piece.new (S.left source.new)) }
    ensures appended { IfOk result (λ n. bytes.new.items ≡ bytes.old.items ++ take n piece.new) }
    ensures grown { IfOk result (λ n. vec_len bytes.new ≡ vec_len bytes.old + n) }
    ensures failed { IfErr result (λ why. why ≢ Unread.TooLong) }
    ensures cause { result ≡ Err Unread.Failed → HasRisen (S.faults source.old) (S.faults source.new) }
    ensures counted { S.faults source.old ≤ S.faults source.new }
{
    match source.read(piece) {
        Ok(count) => {
            bytes.extend_from_slice(&piece[..count])?;
            Ok(count)
        }
        Err(Failed) => Err(Unread::Failed),
    }
}

fn empty_piece(alloc: Global) -> Result<Vec<u8>, AllocError>
    ensures { IfOk result (λ piece. 0 < vec_len piece) }
{
    vec![in alloc; 0u8; PIECE]
}

/// Writes the whole piece, in as many writes as it takes.
///
/// After a fault its first bytes have been written.
pub fn write_whole<K: Sink8>(sink: &mut K, piece: &[u8]) -> Result<(), Failed>
    ensures whole { OnOk result (Appends (K.held sink.old) piece.now (K.held sink.new)) }
    ensures part { OnErr result ((n : ℕ) × Appends (K.held sink.old) (take n piece.now) (K.held sink.new)) }
    ensures cause { OnErr result (HasRisen (K.faults sink.old) (K.faults sink.new)) }
    ensures counted { K.faults sink.old ≤ K.faults sink.new }
{
    let mut written = 0;
    while written < piece.len() {
        written += sink.write(&piece[written..])?;
    }
    Ok(())
}
