// The inner blobs of a store that holds syncs back, by number.
ghost use Rattle.std.specs.Prelude.{◌≡◌, ◌+◌, ◌<◌, ◌++◌, ◌∷◌, [], Some, None, IfSome, OnSome, length, slice_get, is_some, true, vec_len, vec_capacity};
ghost use Rattle.std.specs.Option.{option_copied};
ghost use Rattle.rt_buffer.specs.declared.shared_blob.SharedBlob.{SharedBlob};
ghost use Rattle.rt_buffer.specs.Delayed.{blob_at, closed_by, has_place, with_holder, without_holder};

use std::mem;

/// An inner blob, and how many hold it beside one: its token, and tickets of syncs that aren't ready.
pub struct SharedBlob<B> {
    pub(crate) inner: B,
    pub(crate) others: u64,
}

/// Returns the inner blob of a token that is open.
pub fn inner_of<B>(blobs: &[Option<SharedBlob<B>>], number: u64) -> Option<&B>
    ensures { option_copied result ≡ blob_at blobs.now number }
{
    match blobs.get(number as usize) {
        Some(Some(shared)) => Some(&shared.inner),
        Some(None) | None => None,
    }
}

/// Keeps a blob that only its token holds, under the next number.
pub fn add_blob<B>(blobs: &mut Vec<Option<SharedBlob<B>>>, inner: B) -> u64
    requires { vec_len blobs.old < vec_capacity blobs.old }
    ensures number { result ≡ length blobs.old.items }
    ensures added { blobs.new.items ≡ blobs.old.items ++ Some (record { inner = inner; others = 0 }) ∷ [] }
{
    let number = blobs.len() as u64;
    blobs.push_reserved(Some(SharedBlob { inner, others: 0 }));
    number
}

/// Returns whether one more can hold the blob.
pub fn has_place<B>(blobs: &[Option<SharedBlob<B>>], number: u64) -> bool
    ensures { result ≡ has_place blobs.now number }
{
    match blobs.get(number as usize) {
        Some(Some(shared)) => shared.others < u64::MAX,
        Some(None) | None => true,
    }
}

/// Counts one more that holds the blob.
pub fn hold<B>(blobs: &mut Vec<Option<SharedBlob<B>>>, number: u64)
    requires { has_place blobs.old.items number ≡ true }
    ensures { blobs.new.items ≡ with_holder blobs.old.items number }
{
    let place = number as usize;
    let others = match blobs.get(place) {
        Some(Some(shared)) => shared.others,
        Some(None) | None => return,
    };
    if let Some(shared) = &mut blobs[place] {
        shared.others = others + 1;
    }
}

/// Counts one less that holds the blob, and returns the inner blob if nothing holds it then.
pub fn let_go<B>(blobs: &mut Vec<Option<SharedBlob<B>>>, number: u64) -> Option<B>
    ensures closed { result ≡ closed_by (slice_get blobs.old.items number) }
    ensures held { blobs.new.items ≡ without_holder blobs.old.items number }
{
    let place = number as usize;
    let others = match blobs.get(place) {
        Some(Some(shared)) => shared.others,
        Some(None) | None => return None,
    };
    if others > 0 {
        if let Some(shared) = &mut blobs[place] {
            shared.others = others - 1;
        }
        return None;
    }
    match mem::replace(&mut blobs[place], None) {
        Some(SharedBlob { inner, others: _ }) => Some(inner),
        None => None,
    }
}
