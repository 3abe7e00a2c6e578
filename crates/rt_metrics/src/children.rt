// The children of a family.
ghost use Rattle.std.specs.Prelude.{◌≡◌, IsTrue, IfOk, OnErr, OnOk, Some};
ghost use Rattle.rt_metrics.specs.Registry.{is_held, child_of, child_number, with_child, without_child, has_child};
ghost use Rattle.rt_metrics.specs.MetricText.{labels_text};

use crate::label_set::LabelSet;
use crate::metric::Metric;
use crate::raw;
use crate::registered::Registered;
use crate::registry::Registry;
use crate::writing::write_labels;
use rt_base::{NoMemory, Text};
use std::alloc::Global;

/// A claim on a family of counters.
pub type CounterFamily = Registered<raw::Family<raw::Counter>>;

/// A claim on a family of gauges.
pub type GaugeFamily = Registered<raw::Family<raw::Gauge>>;

impl<M: Metric> Registered<raw::Family<M>> {
    /// Returns the value of the child with these labels, where there is one. Children are told apart by the text of
    /// their labels.
    pub fn get_by<L: LabelSet>(
        &self,
        registry: &Registry,
        labels: &L,
    ) -> Result<Option<i128>, NoMemory>
        ensures { IfOk result (λ value. value ≡ child_number registry.now self.now.id (labels_text (L.pairs labels.now))) }
    {
        let key = label_key(registry.allocator(), labels)?;
        Ok(registry.child_value(self.id, &key))
    }

    /// Returns the number of the child with these labels, which is made where it is missing.
    ///
    /// Error: `NoMemory`, also where no number is left. Nothing has changed after it.
    pub fn get_or_create_by<L: LabelSet>(
        &self,
        registry: &mut Registry,
        labels: &L,
    ) -> Result<u64, NoMemory>
        requires held { IsTrue (is_held registry.old self.now.id) }
        ensures child { IfOk result (λ child. child_of registry.new self.now.id (labels_text (L.pairs labels.now)) ≡ Some child) }
        ensures made { OnOk result (registry.new ≡ with_child registry.old self.now.id (labels_text (L.pairs labels.now)) M.kind) }
        ensures refused { OnErr result (registry.new ≡ registry.old) }
    {
        let key = label_key(registry.allocator(), labels)?;
        registry.child_or_new(self.id, key, M::kind())
    }

    /// Removes the child with these labels, and returns whether there was one.
    ///
    /// Error: `NoMemory`. Nothing has changed after it.
    pub fn remove_by<L: LabelSet>(
        &self,
        registry: &mut Registry,
        labels: &L,
    ) -> Result<bool, NoMemory>
        ensures there { IfOk result (λ there. there ≡ has_child registry.old self.now.id (labels_text (L.pairs labels.now))) }
        ensures removed { OnOk result (registry.new ≡ without_child registry.old self.now.id (labels_text (L.pairs labels.now))) }
        ensures refused { OnErr result (registry.new ≡ registry.old) }
    {
        let key = label_key(registry.allocator(), labels)?;
        Ok(registry.remove_child(self.id, &key))
    }
}

/// The text of the labels.
pub(crate) fn label_key<L: LabelSet>(alloc: Global, labels: &L) -> Result<Text, NoMemory>
    ensures { IfOk result (λ key. key ≡ labels_text (L.pairs labels.now)) }
{
    let labels = labels.labels(alloc)?;
    let mut text = String::new(alloc);
    write_labels(&mut text, &labels)?;
    Ok(Text::of(text))
}
