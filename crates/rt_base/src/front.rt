// The step that the sources in memory share.
ghost use Rattle.std.specs.Prelude.{◌≡◌, min, length, take};

/// Copies the first bytes, as many as there are, as fit and at most `most`, and returns how many.
pub(crate) fn copy_front(from: &[u8], most: usize, into: &mut [u8]) -> usize
    ensures count { result ≡ min (min (length into.old) (length from.now)) most }
    ensures bytes { take result into.new ≡ take result from.now }
{
    let count = into.len().min(from.len()).min(most);
    into[..count].copy_from_slice(&from[..count]);
    count
}
