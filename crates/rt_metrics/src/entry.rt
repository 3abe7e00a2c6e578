// A registered metric.
ghost use Rattle.std.specs.Prelude.{◌≡◌};

use crate::family::Pairs;
use rt_base::Text;
use std::collections::BTreeMap;
use std::marker::Model;

/// A metric that is claimed, and the numbers of its children by the text of their labels.
#[derive(Drop)]
pub struct Entry {
    pub name: Text,
    pub attributes: Pairs,
    pub claims: u64,
    pub children: BTreeMap<Text, u64>,
}

impl Model for Entry {
    ghost use Rattle.rt_metrics.specs.Registry.{MetricState};

    ghost Value = { MetricState };

    ghost view = { λ e. record { name = e.name; attributes = e.attributes; claims = e.claims; children = e.children.entries } };
}
