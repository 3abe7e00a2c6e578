// Versions of the content of a blob.
ghost use Rattle.std.specs.Prelude.{◌≡◌, Some};
ghost use Rattle.std.specs.Fmt.{decimal};

use std::fmt;

/// The version that the owner of a blob gave to its content.
#[derive(Clone, Copy, Debug, PartialEq, Eq, PartialOrd, Ord, Hash, Default)]
pub struct BlobVersion {
    version: u16,
}

/// The version of a blob that is opened without a range of versions.
pub const DEFAULT_BLOB_VERSION: BlobVersion = BlobVersion { version: 0 };

impl BlobVersion {
    /// Makes the version of this number.
    pub fn new(version: u16) -> BlobVersion
        ensures { result.version ≡ version }
    {
        BlobVersion { version }
    }

    /// Returns the number of the version.
    pub fn get(self) -> u16
        ensures { result ≡ self.version }
    {
        self.version
    }
}

impl fmt::Display for BlobVersion {
    ghost output = { λ v. Some (decimal v.version) };

    fn fmt<W: fmt::Write>(&self, f: &mut fmt::Formatter<W>) -> fmt::Result {
        let version = self.version;
        write!(f, "{version}")
    }
}
