// The errors of the runtime, with upstream's names.
ghost use Rattle.std.specs.Prelude.{◌≡◌, IfOk};

use crate::io_kind::IoKind;
use crate::layout::BlobLayout;
use crate::metric_error::MetricError;
use crate::no_memory::NoMemory;
use crate::text::Text;
use crate::version::BlobVersion;
use std::alloc::{AllocError, AllocFailed};
use thiserror::Error;

/// An error of a call of the runtime. Blob names in it are lower-case hex.
#[derive(Debug, Drop, PartialEq, Eq, Error)]
pub enum Error {
    #[error("exited")]
    Exited,
    #[error("closed")]
    Closed,
    #[error("aborted")]
    Aborted,
    #[error("timeout")]
    Timeout,
    #[error("bind failed")]
    BindFailed,
    #[error("connection failed")]
    ConnectionFailed,
    #[error("write failed")]
    WriteFailed,
    #[error("read failed")]
    ReadFailed,
    #[error("send failed")]
    SendFailed,
    #[error("recv failed")]
    RecvFailed,
    /// The host that has no address.
    #[error("dns resolution failed: {0}")]
    ResolveFailed(Text),
    /// The name.
    #[error("partition name invalid, must only contain alphanumeric, dash ('-'), or underscore ('_') characters: {0}")]
    PartitionNameInvalid(Text),
    #[error("partition creation failed: {0}")]
    PartitionCreationFailed(Text),
    #[error("partition missing: {0}")]
    PartitionMissing(Text),
    #[error("partition corrupt: {0}")]
    PartitionCorrupt(Text),
    /// The partition and the blob.
    #[error("blob already open: {0}/{1}")]
    BlobAlreadyOpen(Text, Text),
    #[error("blob open failed: {0}/{1} error: {2}")]
    BlobOpenFailed(Text, Text, IoKind),
    #[error("blob missing: {0}/{1}")]
    BlobMissing(Text, Text),
    #[error("blob resize failed: {0}/{1} error: {2}")]
    BlobResizeFailed(Text, Text, IoKind),
    #[error("blob sync failed: {0}/{1} error: {2}")]
    BlobSyncFailed(Text, Text, IoKind),
    #[error("blob insufficient length")]
    BlobInsufficientLength,
    /// The partition, the blob and the reason.
    #[error("blob corrupt: {0}/{1} reason: {2}")]
    BlobCorrupt(Text, Text, Text),
    /// The least and the greatest layout that would do, and that of the blob.
    #[error("blob layout mismatch: expected one of {}..={}, found {found}", .expected.0, .expected.1)]
    BlobLayoutMismatch {
        expected: (BlobLayout, BlobLayout),
        found: BlobLayout,
    },
    /// The least and the greatest version that would do, and that of the blob.
    #[error("blob version mismatch: expected one of {}..={}, found {found}", .expected.0, .expected.1)]
    BlobVersionMismatch {
        expected: (BlobVersion, BlobVersion),
        found: BlobVersion,
    },
    #[error("invalid or missing checksum")]
    InvalidChecksum,
    #[error("offset overflow")]
    OffsetOverflow,
    #[error("io error: {0}")]
    Io(IoKind),
    #[error("ports exhausted")]
    PortsExhausted,
    #[error("unknown token")]
    UnknownToken,
    #[error("clock overflow")]
    ClockOverflow,
    #[error("too many tasks")]
    TooManyTasks,
    #[error("metric error: {0}")]
    Metric(MetricError),
    #[error("no memory")]
    NoMemory,
}

impl Error {
    /// Returns an equal error. Only texts take memory.
    pub fn clone_value(&self) -> Result<Error, NoMemory>
        ensures { IfOk result (λ error. error ≡ self.now) }
    {
        let copy = match self {
            Error::Exited => Error::Exited,
            Error::Closed => Error::Closed,
            Error::Aborted => Error::Aborted,
            Error::Timeout => Error::Timeout,
            Error::BindFailed => Error::BindFailed,
            Error::ConnectionFailed => Error::ConnectionFailed,
            Error::WriteFailed => Error::WriteFailed,
            Error::ReadFailed => Error::ReadFailed,
            Error::SendFailed => Error::SendFailed,
            Error::RecvFailed => Error::RecvFailed,
            Error::ResolveFailed(host) => Error::ResolveFailed(host.clone_value()?),
            Error::PartitionNameInvalid(name) => Error::PartitionNameInvalid(name.clone_value()?),
            Error::PartitionCreationFailed(name) => Error::PartitionCreationFailed(
                name.clone_value()?,
            ),
            Error::PartitionMissing(name) => Error::PartitionMissing(name.clone_value()?),
            Error::PartitionCorrupt(name) => Error::PartitionCorrupt(name.clone_value()?),
            Error::BlobAlreadyOpen(partition, blob) => Error::BlobAlreadyOpen(
                partition.clone_value()?,
                blob.clone_value()?,
            ),
            Error::BlobOpenFailed(partition, blob, kind) => {
                Error::BlobOpenFailed(partition.clone_value()?, blob.clone_value()?, *kind)
            }
            Error::BlobMissing(partition, blob) => Error::BlobMissing(
                partition.clone_value()?,
                blob.clone_value()?,
            ),
            Error::BlobResizeFailed(partition, blob, kind) => {
                Error::BlobResizeFailed(partition.clone_value()?, blob.clone_value()?, *kind)
            }
            Error::BlobSyncFailed(partition, blob, kind) => {
                Error::BlobSyncFailed(partition.clone_value()?, blob.clone_value()?, *kind)
            }
            Error::BlobInsufficientLength => Error::BlobInsufficientLength,
            Error::BlobCorrupt(partition, blob, reason) => {
                Error::BlobCorrupt(
                    partition.clone_value()?,
                    blob.clone_value()?,
                    reason.clone_value()?,
                )
            }
            Error::BlobLayoutMismatch { expected, found } => {
                Error::BlobLayoutMismatch {
                    expected: *expected,
                    found: *found,
                }
            }
            Error::BlobVersionMismatch { expected, found } => {
                Error::BlobVersionMismatch {
                    expected: *expected,
                    found: *found,
                }
            }
            Error::InvalidChecksum => Error::InvalidChecksum,
            Error::OffsetOverflow => Error::OffsetOverflow,
            Error::Io(kind) => Error::Io(*kind),
            Error::PortsExhausted => Error::PortsExhausted,
            Error::UnknownToken => Error::UnknownToken,
            Error::ClockOverflow => Error::ClockOverflow,
            Error::TooManyTasks => Error::TooManyTasks,
            Error::Metric(kind) => Error::Metric(*kind),
            Error::NoMemory => Error::NoMemory,
        };
        Ok(copy)
    }
}

impl From<AllocError> for Error {
    ghost use Rattle.std.specs.Prelude.{◌≡◌};
    ghost use Rattle.rt_base.specs.declared.error.Error.TheVariants.{NoMemory};

    ghost from_gives = { λ _ e. e ≡ NoMemory };

    fn from(_: AllocError) -> Error {
        Error::NoMemory
    }
}

impl<T: Drop> From<AllocFailed<T>> for Error {
    ghost use Rattle.std.specs.Prelude.{◌≡◌};
    ghost use Rattle.rt_base.specs.declared.error.Error.TheVariants.{NoMemory};

    ghost from_gives = { λ _ e. e ≡ NoMemory };

    fn from(_: AllocFailed<T>) -> Error {
        Error::NoMemory
    }
}

impl From<NoMemory> for Error {
    ghost use Rattle.std.specs.Prelude.{◌≡◌};
    ghost use Rattle.rt_base.specs.declared.error.Error.TheVariants.{NoMemory};

    ghost from_gives = { λ _ e. e ≡ NoMemory };

    fn from(_: NoMemory) -> Error {
        Error::NoMemory
    }
}

impl From<MetricError> for Error {
    ghost use Rattle.std.specs.Prelude.{◌≡◌};
    ghost use Rattle.rt_base.specs.declared.error.Error.TheVariants.{Metric};

    ghost from_gives = { λ kind e. e ≡ Metric kind };

    fn from(kind: MetricError) -> Error {
        Error::Metric(kind)
    }
}

impl From<IoKind> for Error {
    ghost use Rattle.std.specs.Prelude.{◌≡◌};
    ghost use Rattle.rt_base.specs.declared.error.Error.TheVariants.{Io};

    ghost from_gives = { λ kind e. e ≡ Io kind };

    fn from(kind: IoKind) -> Error {
        Error::Io(kind)
    }
}
