// How a blob lies on a disk.
ghost use Rattle.std.specs.Prelude.{Some};
ghost use Rattle.rt_base.specs.Layout.{layout_text};

use std::fmt;

/// The layout of a blob.
#[derive(Clone, Copy, Debug, PartialEq, Eq, PartialOrd, Ord)]
pub enum BlobLayout {
    V0,
    V1,
}

/// The layout of new blobs.
pub const DEFAULT_BLOB_LAYOUT: BlobLayout = BlobLayout::V1;

/// The size of a page of a blob, in bytes.
pub const BLOB_PAGE_SIZE: u32 = 4096;

impl BlobLayout {
    /// All layouts, as a range: the least and the greatest.
    pub const ALL: (BlobLayout, BlobLayout) = (BlobLayout::V0, BlobLayout::V1);
}

impl fmt::Display for BlobLayout {
    ghost output = { λ layout. Some (layout_text layout) };

    fn fmt<W: fmt::Write>(&self, f: &mut fmt::Formatter<W>) -> fmt::Result {
        match *self {
            BlobLayout::V0 => f.write_str("V0"),
            BlobLayout::V1 => f.write_str("V1"),
        }
    }
}
