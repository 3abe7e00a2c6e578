// The token of an open blob of a `MemStore`.
ghost use Rattle.std.specs.Prelude.{◌≡◌};

/// A token of an open blob of a `MemStore`: its place and the number of its `open`. The number never comes again. It
/// must be spent by `Storage::close`.
#[derive(Debug)]
pub struct Blob {
    pub(crate) number: u64,
    pub(crate) place: u64,
}

impl Blob {
    /// Returns the number of the token, which no other token of its `MemStore` has.
    pub fn number(&self) -> u64
        ensures { result ≡ self.now.number }
    {
        self.number
    }
}
