//! The numbers of errors, as journals and scenarios print them.

ghost use Rattle.std.specs.Prelude.{◌≡◌};
ghost use Rattle.rt_audit.specs.Codes.{code_of};

use rt_base::Error;

/// Returns the number of an error: 1 for `Exited` up to 22 for an error of input or output, and 23 for any other.
pub fn error_code(error: &Error) -> u64
    ensures { result ≡ code_of error.now }
{
    match error {
        Error::Exited => 1,
        Error::Closed => 2,
        Error::Aborted => 3,
        Error::Timeout => 4,
        Error::BindFailed => 5,
        Error::ConnectionFailed => 6,
        Error::SendFailed => 7,
        Error::RecvFailed => 8,
        Error::ResolveFailed(_) => 9,
        Error::PortsExhausted => 10,
        Error::ClockOverflow => 11,
        Error::UnknownToken => 12,
        Error::TooManyTasks => 13,
        Error::Metric(_) => 14,
        Error::BlobInsufficientLength => 15,
        Error::OffsetOverflow => 16,
        Error::BlobAlreadyOpen(_, _) => 17,
        Error::PartitionNameInvalid(_) => 18,
        Error::PartitionMissing(_) => 19,
        Error::BlobMissing(_, _) => 20,
        Error::BlobVersionMismatch {
            expected: _,
            found: _,
        } => 21,
        Error::Io(_) => 22,
        _ => 23,
    }
}
