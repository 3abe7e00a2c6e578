// Why a store returns an input or output error.

use thiserror::Error;

/// The causes of `Error::Io`.
#[derive(Clone, Copy, Debug, PartialEq, Eq, Error)]
pub enum IoKind {
    /// The store drew a fault by one of its rates.
    #[error("injected storage fault")]
    InjectedStorageFault,
    /// A sync that a test holds was released with a failure.
    #[error("injected sync failure")]
    InjectedSyncFailure,
    /// A write that a test lets fail.
    #[error("injected write failure")]
    InjectedWriteFailure,
    /// A sync in a partition whose syncs a test lets fail.
    #[error("injected partition sync fault")]
    InjectedPartitionSyncFault,
}
