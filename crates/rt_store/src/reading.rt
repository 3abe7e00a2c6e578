// Reads of several ranges.
ghost use Rattle.std.specs.Prelude.{◌≡◌, [], ℕ, List, length, IfOk};
ghost use Rattle.rt_store.specs.Draws.{Answers};
ghost use Rattle.rt_store.specs.Reading.{HaveLengths, HavePlacedLengths, IsWhole, bytes_of, placed, placed_bytes, ranges_of, ranges_refusal};

use crate::store::range_of;
use rt_base::{Error, NoMemory};
use rt_bufs::{IoBufMut, IoBufsMut};
use std::alloc::Global;

/// Returns the bytes of each range, in their order.
pub fn read_ranges(
    alloc: Global,
    content: &[u8],
    ranges: &[(u64, usize)],
) -> Result<Vec<IoBufsMut>, Error>
    ensures gives { Answers (ranges_refusal ranges.now (length content.now)) 0 (λ bufs. bytes_of bufs.items ≡ ranges_of ranges.now content.now) result [] }
    ensures len { IfOk result (λ bufs. HaveLengths ranges.now bufs.items) }
{
    let mut bufs = Vec::with_capacity(alloc, ranges.len())?;
    let mut rest = ranges;
    while let Some(((offset, len), tail)) = rest.split_first() {
        let bytes = range_of(content, *offset, *len)?;
        bufs.push(copy_of(alloc, bytes)?)?;
        rest = tail;
    }
    Ok(bufs)
}

/// Returns each buffer with its place among them.
pub fn with_places(alloc: Global, bufs: Vec<IoBufsMut>) -> Result<Vec<(usize, IoBufsMut)>, NoMemory>
    ensures placed { IfOk result (λ reads. placed_bytes reads.items ≡ placed 0 (bytes_of bufs.items)) }
    ensures whole { IfOk result (λ reads. IsWhole (length bufs.items) reads.items) }
    ensures each { IfOk result (λ reads. length reads.items ≡ length bufs.items) }
    ensures len { (ranges : List (ℕ × ℕ)) → HaveLengths ranges bufs.items → IfOk result (λ reads. HavePlacedLengths ranges reads.items) }
{
    let mut reads = Vec::with_capacity(alloc, bufs.len())?;
    for buf in bufs {
        reads.push((reads.len(), buf))?;
    }
    Ok(reads)
}

// A buffer with these bytes.
fn copy_of(alloc: Global, bytes: &[u8]) -> Result<IoBufsMut, NoMemory>
    ensures { IfOk result (λ b. b.bytes ≡ bytes.now) }
{
    let mut buf = IoBufMut::with_capacity(alloc, bytes.len())?;
    buf.put_slice(bytes);
    IoBufsMut::from_mut(alloc, buf)
}
