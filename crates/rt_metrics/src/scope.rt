// Names under a prefix.
ghost use Rattle.std.specs.Prelude.{◌≡◌, ◌⊎◌, ◌↔◌, ℕ, Some, None, Err, IfOk, IfErr, OnOk, OnErr, false, []};
ghost use Rattle.rt_base.specs.Label.{is_label, prefixed};
ghost use Rattle.rt_metrics.specs.Registry.{claim_number, with_claim, scoped_refusal};

use crate::metric::Metric;
use crate::registered::Registered;
use crate::registry::Registry;
use rt_base::{Error, MetricError, Text, prefixed_name, validate_label};
use std::alloc::Global;

/// A prefix for the names of metrics: each name under it is the prefix, an underscore and the name.
#[derive(Debug, Drop)]
pub struct Scope {
    prefix: Text,
    alloc: Global,
}

impl Registry {
    /// Returns a scope of this prefix.
    ///
    /// Errors: `Metric(BadLabel)` where the prefix isn't a label; `NoMemory`.
    pub fn sub_registry(&mut self, prefix: &str) -> Result<Scope, Error>
        ensures prefix { IfOk result (λ scope. scope.prefix ≡ prefix.now) }
        ensures bad_label { (result ≡ Err (Error.Metric MetricError.BadLabel)) ↔ (is_label prefix.now ≡ false) }
        ensures causes { IfErr result (λ error. (error ≡ Error.NoMemory) ⊎ (error ≡ Error.Metric MetricError.BadLabel)) }
        ensures unchanged { self.new ≡ self.old }
    {
        scope_under(self.allocator(), "", prefix)
    }
}

impl Scope {
    /// Returns a claim on the metric with this name under the prefix, without attributes.
    ///
    /// Errors: `Metric(BadLabel)` where the name isn't a label; then those of [`Registry::register`]. Nothing has
    /// changed after an error.
    pub fn register<M: Metric>(
        &self,
        registry: &mut Registry,
        name: &str,
        help: &str,
    ) -> Result<Registered<M>, Error>
        ensures number { IfOk result (λ metric. metric.id ≡ claim_number registry.old (prefixed self.now.prefix name.now) []) }
        ensures claimed { OnOk result (registry.new ≡ with_claim registry.old (prefixed self.now.prefix name.now) help.now M.kind []) }
        ensures accepted { OnOk result (scoped_refusal registry.old self.now.prefix name.now help.now M.kind ≡ None) }
        ensures causes { IfErr result (λ error. (error ≡ Error.NoMemory) ⊎ ((why : MetricError) × (error ≡ Error.Metric why) × (scoped_refusal registry.old self.now.prefix name.now help.now M.kind ≡ Some why))) }
        ensures refused { OnErr result (registry.new ≡ registry.old) }
    {
        validate_label(name)?;
        let full = prefixed_name(self.alloc, self.prefix.as_str(), name)?;
        registry.register(&full, help, &[])
    }

    /// Returns a scope of a further prefix under this one.
    ///
    /// Errors: `Metric(BadLabel)` where the prefix isn't a label; `NoMemory`.
    pub fn sub_registry(&self, prefix: &str) -> Result<Scope, Error>
        ensures prefix { IfOk result (λ scope. scope.prefix ≡ prefixed self.now.prefix prefix.now) }
        ensures bad_label { (result ≡ Err (Error.Metric MetricError.BadLabel)) ↔ (is_label prefix.now ≡ false) }
        ensures causes { IfErr result (λ error. (error ≡ Error.NoMemory) ⊎ (error ≡ Error.Metric MetricError.BadLabel)) }
    {
        scope_under(self.alloc, self.prefix.as_str(), prefix)
    }
}

/// Returns the scope of a prefix under another one, which may be empty.
fn scope_under(alloc: Global, outer: &str, prefix: &str) -> Result<Scope, Error>
    ensures prefix { IfOk result (λ scope. scope.prefix ≡ prefixed outer.now prefix.now) }
    ensures bad_label { (result ≡ Err (Error.Metric MetricError.BadLabel)) ↔ (is_label prefix.now ≡ false) }
    ensures causes { IfErr result (λ error. (error ≡ Error.NoMemory) ⊎ (error ≡ Error.Metric MetricError.BadLabel)) }
{
    validate_label(prefix)?;
    let prefix = Text::of(prefixed_name(alloc, outer, prefix)?);
    Ok(Scope { prefix, alloc })
}
