// Why a metric, a label or a name is refused.

use thiserror::Error;

/// The causes of `Error::Metric`.
#[derive(Clone, Copy, Debug, PartialEq, Eq, Error)]
pub enum MetricError {
    /// The label isn't a letter and then letters, digits and underscores.
    #[error("bad label")]
    BadLabel,
    /// The full name begins with `runtime`.
    #[error("reserved")]
    Reserved,
    /// The name is there with another type.
    #[error("other type")]
    OtherType,
    /// The name is there with another help text.
    #[error("other help")]
    OtherHelp,
}
