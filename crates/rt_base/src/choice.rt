// What a crash does with one unsynced change of a blob.

/// The fate of an unsynced change: kept, dropped, or cut to its first bytes.
#[derive(Clone, Copy, Debug, PartialEq, Eq)]
pub enum Choice {
    Kept,
    Dropped,
    /// Only so many of its first bytes are kept.
    Prefix(u64),
}
