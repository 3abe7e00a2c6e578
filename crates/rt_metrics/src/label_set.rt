// Labels of a family's children.
ghost use Rattle.std.specs.Prelude.{◌≡◌, IfOk};
ghost use Rattle.rt_metrics.specs.Registry.{Pairs};

use rt_base::{NoMemory, Text};
use std::alloc::Global;

/// The labels by whose text the children of a family are told apart.
pub trait LabelSet {
    ghost pairs: { Self → Pairs };

    /// Returns the labels as keys and values.
    fn labels(&self, alloc: Global) -> Result<Vec<(Text, Text)>, NoMemory>
        ensures { IfOk result (λ labels. labels.items ≡ pairs self.now) };
}
