// The metrics of one name.
ghost use Rattle.std.specs.Prelude.{◌≡◌};
ghost use Rattle.rt_metrics.specs.Registry.{own_refusal};

use crate::kind::Kind;
use indexmap::IndexMap;
use rt_base::{Items, MetricError, Text};
use std::marker::Model;

/// Pairs of keys and values: the attributes of a metric.
pub type Pairs = Items<(Text, Text)>;

/// What the metrics of one name share, and the number of each by its attributes, in the order of
/// their registration; a removed one's place is taken by the last.
#[derive(Drop)]
pub struct Family {
    pub help: Text,
    pub kind: Kind,
    pub members: IndexMap<Pairs, u64>,
}

impl Model for Family {
    ghost use Rattle.rt_metrics.specs.Registry.{FamilyState};

    ghost Value = { FamilyState };

    ghost view = { λ f. record { help = f.help; kind = f.kind; members = f.members.entries } };
}

impl Family {
    /// Returns why a metric with this help and of this kind can't be one of these, if it can't.
    pub fn refusal(&self, help: &str, kind: Kind) -> Option<MetricError>
        ensures { result ≡ own_refusal self.now help.now kind }
    {
        if self.help.as_str() != help {
            Some(MetricError::OtherHelp)
        } else if !self.kind.is(kind) {
            Some(MetricError::OtherType)
        } else {
            None
        }
    }
}
