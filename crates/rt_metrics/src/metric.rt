// What a metric is registered as.
ghost use Rattle.std.specs.Prelude.{◌≡◌};
ghost use Rattle.rt_metrics.specs.declared.kind.Kind.{Kind};

use crate::kind::Kind;

/// One of the four kinds of metrics, as a type. The types of [`raw`](crate::raw) alone are metrics.
pub trait Metric {
    ghost kind: { Kind };

    /// Returns the kind.
    fn kind() -> Kind
        ensures { result ≡ kind };
}
