// The bytes of a blob, changed in the room that was taken for it.
ghost use Rattle.std.specs.Prelude.{◌≡◌, ◌+◌, ◌-◌, ◌^◌, ◌<◌, ◌≤◌, length, take, drop, min, vec_capacity, IfOk};
ghost use Rattle.rt_store.specs.Changes.{undone, end_of, zeroed, laid, len_after};
ghost use Rattle.rt_store.specs.Content.{written, resized};
ghost use Rattle.rt_store.specs.File.{applied};

use crate::change::Before;
use crate::mutation::Mutation;
use rt_base::NoMemory;
use std::alloc::Global;

/// Puts `bytes` at an offset, with zeros before it where it is past the end.
pub fn put(content: &mut Vec<u8>, at: usize, bytes: &[u8])
    requires { at + length bytes.now ≤ vec_capacity content.old }
    ensures bytes { content.new.items ≡ written at bytes.now content.old.items }
    ensures room { vec_capacity content.old ≤ vec_capacity content.new }
{
    if content.len() < at {
        set_len(content, at);
    }
    let over = bytes.len().min(content.len() - at);
    let (first, rest) = bytes.split_at(over);
    content.as_mut_slice()[at..at + over].copy_from_slice(first);
    match content.extend_from_slice(rest) {
        Ok(()) => {}
        Err(_) => unreachable!(),
    }
}

/// Cuts the bytes, or extends them with zeros.
pub fn set_len(content: &mut Vec<u8>, len: usize)
    requires { len ≤ vec_capacity content.old }
    ensures bytes { content.new.items ≡ resized len content.old.items }
    ensures room { vec_capacity content.old ≤ vec_capacity content.new }
{
    match content.resize(len, 0) {
        Ok(()) => {}
        Err(_) => unreachable!(),
    }
}

/// Does a change.
pub fn apply(content: &mut Vec<u8>, mutation: &Mutation)
    requires { end_of mutation.now ≤ vec_capacity content.old }
    ensures bytes { content.new.items ≡ applied mutation.now content.old.items }
    ensures room { vec_capacity content.old ≤ vec_capacity content.new }
{
    match mutation {
        Mutation::Write {
            at,
            bytes,
            durable: _,
        } => put(content, *at, bytes.as_slice()),
        Mutation::Resize { len } => set_len(content, *len),
    }
}

// Makes held bytes zero, and adds zeros where there are too few.
fn clear(held: &mut Vec<u8>, from: usize, to: usize)
    requires within { from ≤ length held.old.items }
    requires room { to ≤ vec_capacity held.old }
    ensures bytes { held.new.items ≡ zeroed from to held.old.items }
    ensures room { vec_capacity held.old ≤ vec_capacity held.new }
{
    if to <= from {
        return;
    }
    if to <= held.len() {
        held.as_mut_slice()[from..to].fill(0);
    } else {
        held.truncate(from);
        set_len(held, to);
    }
}

/// Does a change of a blob that has the first `len` bytes, and returns how many it has then. Those that are cut stay
/// held.
#[tactic(auto, using(crate::proofs::Undone::laid_is, crate::proofs::Undone::laid_long))]
pub fn lay(held: &mut Vec<u8>, len: usize, mutation: &Mutation) -> usize
    requires within { len ≤ length held.old.items }
    requires room { end_of mutation.now ≤ vec_capacity held.old }
    ensures held { held.new.items ≡ laid mutation.now len held.old.items }
    ensures len { result ≡ len_after mutation.now len }
    ensures bytes { take result held.new.items ≡ applied mutation.now (take len held.old.items) }
    ensures within { result ≤ length held.new.items }
    ensures room { vec_capacity held.old ≤ vec_capacity held.new }
{
    match mutation {
        Mutation::Write {
            at,
            bytes,
            durable: _,
        } => {
            clear(held, len, *at);
            put(held, *at, bytes.as_slice());
            len.max(*at + bytes.len())
        }
        Mutation::Resize { len: to } => {
            clear(held, len, *to);
            *to
        }
    }
}

/// Undoes a change.
pub fn undo(held: &mut Vec<u8>, before: &Before)
    requires { before.now.at + length before.now.saved.items ≤ vec_capacity held.old }
    ensures bytes { held.new.items ≡ undone before.now held.old.items }
    ensures room { vec_capacity held.old ≤ vec_capacity held.new }
{
    put(held, before.at, before.saved.as_slice());
    held.truncate(before.held);
}

/// Returns what undoes a change of a blob that has the first `len` bytes, once it is done. Bytes that are cut aren't
/// copied.
#[tactic(auto, using(crate::proofs::Undone::back_write_laid, crate::proofs::Undone::back_length_laid))]
pub fn before_of(
    alloc: Global,
    held: &[u8],
    len: usize,
    mutation: &Mutation,
) -> Result<Before, NoMemory>
    requires within { len ≤ length held.now }
    requires fits { end_of mutation.now < 2 ^ 63 }
    ensures undoes { IfOk result (λ b. undone b (laid mutation.now len held.now) ≡ held.now) }
    ensures len { IfOk result (λ b. b.len ≡ len) }
    ensures ends { IfOk result (λ b. b.at + length b.saved.items ≤ length held.now) }
{
    match mutation {
        Mutation::Write {
            at,
            bytes,
            durable: _,
        } => written_over(alloc, held, len, *at, *at + bytes.len()),
        Mutation::Resize { len: to } => written_over(alloc, held, len, *to, *to),
    }
}

// The bytes that a change of a blob from `at` up to `end` writes over: from its own end on where it begins after that.
fn written_over(
    alloc: Global,
    held: &[u8],
    len: usize,
    at: usize,
    end: usize,
) -> Result<Before, NoMemory>
    requires { len ≤ length held.now }
    ensures at { IfOk result (λ b. b.at ≡ min at len) }
    ensures saved { IfOk result (λ b. b.saved.items ≡ take (end - min at len) (drop (min at len) held.now)) }
    ensures held { IfOk result (λ b. b.held ≡ length held.now) }
    ensures len { IfOk result (λ b. b.len ≡ len) }
{
    let at = at.min(len);
    let tail = &held[at..];
    let (over, _) = tail.split_at(end.saturating_sub(at).min(tail.len()));
    let mut saved = Vec::with_capacity(alloc, over.len())?;
    saved.extend_from_slice(over)?;
    Ok(Before {
        at,
        saved,
        held: held.len(),
        len,
    })
}
