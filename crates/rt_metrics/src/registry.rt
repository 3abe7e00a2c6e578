// The registry of metrics.
ghost use Rattle.std.specs.Prelude.{◌≡◌, ◌⊎◌, ◌↔◌, ◌<◌, ◌≤◌, ◌+◌, ◌-◌, Some, None, Err, ℕ, List, length, nat_eq, nat_lt, IsTrue, IfOk, IfErr, OnErr, OnOk, false};
ghost use Rattle.std.specs.Option.{option_copied};
ghost use Rattle.rt_base.specs.Label.{is_label};
ghost use Rattle.rt_metrics.specs.Coherence.{IsCoherent, ChangesOne};
ghost use Rattle.rt_metrics.specs.Registry.{Pairs, first_registry, with_first, is_held, claims_of, claimed, released, registered, family_of, member_of, value_of, metric_of, refusal, claim_number, with_claim, child_of, child_number, has_child, with_child, without_child, lowered, levelled_at, counted, levelled, with_member, without_member, without_value, family_refusal};
ghost use Rattle.rt_metrics.specs.Several.{with_children, numbered, with_firsts};
ghost use Rattle.indexmap.specs.IndexMap.{insert_entry, spare};
ghost use Rattle.std.specs.List.{fold};
ghost use Rattle.std.specs.Map.{values_of};

use crate::entry::Entry;
use crate::family::{Family, Pairs};
use crate::home::Home;
use crate::kind::Kind;
use crate::metric::Metric;
use crate::registered::Registered;
use crate::sample::Sample;
use indexmap::IndexMap;
use rt_base::{Error, MetricError, NoMemory, Text, clone_attributes, validate_label};
use std::alloc::Global;
use std::collections::BTreeMap;
use std::marker::Model;

/// The metrics of a program, with their values.
///
/// A metric is registered by its name and attributes, and lives while it is claimed. Each has a number, as each child
/// of a family has; a number is never used again.
#[derive(Drop)]
pub struct Registry {
    families: BTreeMap<Text, Family>,
    metrics: IndexMap<u64, Entry>,
    values: IndexMap<u64, Sample>,
    next: u64,
    /// The maps don't hand out theirs.
    alloc: Global,
}

impl Model for Registry {
    ghost use Rattle.rt_metrics.specs.Registry.{RegistryState};
    ghost use Rattle.rt_metrics.specs.Coherence.{Agree};

    ghost Value = { RegistryState };

    ghost view = { λ r. record { families = r.families.entries; metrics = r.metrics.entries; values = r.values.entries; next = r.next } };

    ghost invariant = { λ r. Agree r.families.entries r.metrics.entries r.next };
}

impl Registry {
    /// Makes a registry without metrics.
    pub fn new(alloc: Global) -> Self
        ensures { result ≡ first_registry }
    {
        Registry {
            families: BTreeMap::new(alloc),
            metrics: IndexMap::new(alloc),
            values: IndexMap::new(alloc),
            next: 0,
            alloc,
        }
    }

    /// Returns whether a metric has this number, which it has exactly while it is claimed.
    pub fn holds(&self, id: u64) -> bool
        ensures held { result ≡ is_held self.now id }
        ensures claimed { result ≡ nat_lt 0 (claims_of self.now id) }
    {
        self.metrics.contains_key(&id)
    }

    /// Returns how many claims the metric of this number has, and 0 where there is none.
    ///
    /// There are some exactly while a name with attributes is registered under this number. Each name with attributes
    /// leads to the metric that has them, and no metric has the next number.
    pub fn claims(&self, id: u64) -> u64
        ensures claims { result ≡ claims_of self.now id }
        ensures registered { (0 < result) ↔ ((name : List ℕ) × (attributes : Pairs) × (member_of self.now name attributes ≡ Some id)) }
        ensures coherent { IsCoherent self.now }
    {
        match self.metrics.get(&id) {
            Some(entry) => entry.claims,
            None => 0,
        }
    }

    /// The value of this number.
    pub(crate) fn sample(&self, id: u64) -> Option<Sample>
        ensures { result ≡ value_of self.now id }
    {
        self.values.get(&id).copied()
    }

    pub(crate) fn allocator(&self) -> Global {
        self.alloc
    }

    /// The families, by name.
    pub(crate) fn families(&self) -> &BTreeMap<Text, Family>
        ensures { result.now.entries ≡ self.now.families }
    {
        &self.families
    }

    /// The metric of this number.
    pub(crate) fn entry(&self, id: u64) -> Option<&Entry>
        ensures { option_copied result ≡ metric_of self.now id }
    {
        self.metrics.get(&id)
    }

    /// One claim more on a metric.
    pub(crate) fn claim(&mut self, id: u64)
        ensures { self.new ≡ claimed self.old id }
    {
        if let Some(entry) = self.metrics.get_mut(&id) {
            entry.claims = entry.claims.saturating_add(1);
        }
    }

    /// Returns a claim on the metric with this name and these attributes, which is made, at 0, where it is missing.
    ///
    /// Errors: `Metric(BadLabel)` where the name isn't a label, then `Metric(OtherHelp)` where the name is there with
    /// another help, and `Metric(OtherType)` where it is there as another kind; `NoMemory`, also where no number is
    /// left. Nothing has changed after an error.
    pub fn register<M: Metric>(
        &mut self,
        name: &str,
        help: &str,
        attributes: &[(Text, Text)],
    ) -> Result<Registered<M>, Error>
        ensures number { IfOk result (λ metric. metric.id ≡ claim_number self.old name.now attributes.now) }
        ensures claimed { OnOk result (self.new ≡ with_claim self.old name.now help.now M.kind attributes.now) }
        ensures accepted { OnOk result (refusal self.old name.now help.now M.kind ≡ None) }
        ensures causes { IfErr result (λ error. (error ≡ Error.NoMemory) ⊎ ((why : MetricError) × (error ≡ Error.Metric why) × (refusal self.old name.now help.now M.kind ≡ Some why))) }
        ensures bad_label { (result ≡ Err (Error.Metric MetricError.BadLabel)) ↔ (is_label name.now ≡ false) }
        ensures refused { OnErr result (self.new ≡ self.old) }
    {
        validate_label(name)?;
        let key = Text::of(String::from_str(self.alloc, name)?);
        let attributes = clone_attributes(self.alloc, attributes)?;
        let id = match self.find(&key, help, &attributes, M::kind())? {
            Some(id) => {
                self.claim(id);
                id
            }
            None => self.add(key, help, attributes, M::kind())?,
        };
        Ok(Registered::of(id))
    }

    /// Returns the metric with this name and these attributes, where its family agrees.
    fn find(
        &self,
        name: &Text,
        help: &str,
        attributes: &Pairs,
        kind: Kind,
    ) -> Result<Option<u64>, MetricError>
        ensures found { IfOk result (λ id. (id ≡ member_of self.now name.now attributes.now) × (family_refusal (family_of self.now name.now) help.now kind ≡ None)) }
        ensures refused { IfErr result (λ why. family_refusal (family_of self.now name.now) help.now kind ≡ Some why) }
    {
        match self.families.get(name) {
            Some(family) => match family.refusal(help, kind) {
                Some(why) => Err(why),
                None => Ok(family.members.get(attributes).copied()),
            },
            None => Ok(None),
        }
    }

    /// Adds a metric, and returns its number.
    fn add(
        &mut self,
        name: Text,
        help: &str,
        attributes: Pairs,
        kind: Kind,
    ) -> Result<u64, NoMemory>
        requires absent { member_of self.old name attributes ≡ None }
        ensures added { IfOk result (λ id. (id ≡ self.old.next) × (self.new ≡ registered self.old name help.now kind attributes)) }
        ensures refused { OnErr result (self.new ≡ self.old) }
    {
        let id = self.next;
        let Some(next) = id.checked_add(1) else {
            return Err(NoMemory);
        };
        self.metrics.reserve(1)?;
        self.values.reserve(1)?;
        let entry = Entry {
            name: name.clone_value()?,
            attributes: clone_attributes(self.alloc, attributes.as_slice())?,
            claims: 1,
            children: BTreeMap::new(self.alloc),
        };
        join(
            self.alloc,
            &mut self.families,
            name,
            help,
            kind,
            attributes,
            id,
        )?;
        put(&mut self.metrics, id, entry);
        put_first(&mut self.values, id, kind);
        self.next = next;
        Ok(id)
    }

    /// Subtracts from a gauge, wrapping.
    pub(crate) fn lower(&mut self, id: u64, change: i64)
        ensures { self.new ≡ lowered self.old id change }
    {
        if let Some(sample) = self.values.get_mut(&id) {
            *sample = sample.lowered(change);
        }
    }

    /// Sets a gauge.
    pub(crate) fn set_level(&mut self, id: u64, value: i64)
        ensures { self.new ≡ levelled_at self.old id value }
    {
        if let Some(sample) = self.values.get_mut(&id) {
            *sample = sample.levelled_at(value);
        }
    }

    /// The value of a child.
    pub(crate) fn child_value(&self, id: u64, labels: &Text) -> Option<i128>
        ensures { result ≡ child_number self.now id labels.now }
    {
        let child = self.child(id, labels)?;
        Some(self.sample(child)?.number())
    }

    /// The number of a child.
    pub(crate) fn child(&self, id: u64, labels: &Text) -> Option<u64>
        ensures { result ≡ child_of self.now id labels.now }
    {
        self.entry(id)?.children.get(labels).copied()
    }

    /// The number of a child, which is made where it is missing.
    pub(crate) fn child_or_new(
        &mut self,
        id: u64,
        labels: Text,
        kind: Kind,
    ) -> Result<u64, NoMemory>
        ensures child { IfOk result (λ child. IsTrue (is_held self.old id) → child_of self.new id labels ≡ Some child) }
        ensures made { OnOk result (self.new ≡ with_child self.old id labels kind) }
        ensures refused { OnErr result (self.new ≡ self.old) }
    {
        match self.child(id, &labels) {
            Some(child) => Ok(child),
            None => self.new_child(id, labels, kind),
        }
    }

    /// Adds a child, and returns its number.
    fn new_child(&mut self, id: u64, labels: Text, kind: Kind) -> Result<u64, NoMemory>
        requires absent { child_of self.old id labels ≡ None }
        ensures child { IfOk result (λ child. IsTrue (is_held self.old id) → child_of self.new id labels ≡ Some child) }
        ensures made { OnOk result (self.new ≡ with_child self.old id labels kind) }
        ensures refused { OnErr result (self.new ≡ self.old) }
    {
        let child = self.next;
        let Some(next) = child.checked_add(1) else {
            return Err(NoMemory);
        };
        self.values.reserve(1)?;
        if let Some(entry) = self.metrics.get_mut(&id) {
            entry.children.insert(labels, child)?;
        }
        put_first(&mut self.values, child, kind);
        self.next = next;
        Ok(child)
    }

    /// Makes the children that are missing, all or none.
    pub(crate) fn make_children(
        &mut self,
        id: u64,
        labels: &[Text],
        kind: Kind,
    ) -> Result<(), NoMemory>
        requires held { IsTrue (is_held self.old id) }
        ensures made { OnOk result (self.new ≡ with_children self.old id labels.now kind) }
        ensures refused { OnErr result (self.new ≡ self.old) }
    {
        self.values.reserve(labels.len())?;
        let first = self.next;
        if let Some(entry) = self.metrics.get_mut(&id) {
            self.next = number_missing(&mut entry.children, labels, first)?;
        }
        put_firsts(&mut self.values, first, self.next, kind);
        Ok(())
    }

    /// Removes a child, and returns whether there was one.
    pub(crate) fn remove_child(&mut self, id: u64, labels: &Text) -> bool
        ensures there { result ≡ has_child self.old id labels.now }
        ensures removed { self.new ≡ without_child self.old id labels.now }
    {
        let Some(entry) = self.metrics.get_mut(&id) else {
            return false;
        };
        match entry.children.remove(labels) {
            Some(child) => {
                self.values.swap_remove(&child);
                true
            }
            None => false,
        }
    }

    /// Gives one claim of a metric up.
    pub(crate) fn give_up(&mut self, id: u64)
        ensures { self.new ≡ released self.old id }
    {
        match self.claims(id) {
            0 | 1 => self.remove(id),
            _ => self.unclaim(id),
        }
    }

    /// One claim less on a metric that has more than one.
    fn unclaim(&mut self, id: u64)
        requires { 1 < claims_of self.old id }
        ensures { self.new ≡ released self.old id }
    {
        if let Some(entry) = self.metrics.get_mut(&id) {
            entry.claims -= 1;
        }
    }

    /// Removes a metric that has no further claim, and its children.
    fn remove(&mut self, id: u64)
        requires { claims_of self.old id ≤ 1 }
        ensures { self.new ≡ released self.old id }
    {
        let Some(entry) = self.metrics.swap_remove(&id) else {
            return;
        };
        self.values.swap_remove(&id);
        forget(&mut self.values, &entry.children);
        leave(&mut self.families, &entry.name, &entry.attributes);
    }
}

/// Puts a value in, for which there is room.
fn put<V: Drop>(map: &mut IndexMap<u64, V>, id: u64, value: V)
    requires { 0 < spare map.old }
    ensures entries { map.new.entries ≡ insert_entry nat_eq map.old.entries id value }
    ensures spare { spare map.old ≤ spare map.new + 1 }
{
    match map.insert(id, value) {
        Ok(_) => {}
        Err(_) => unreachable!(),
    }
}

/// Puts the first value of a kind in, for which there is room. A family has none.
fn put_first(values: &mut IndexMap<u64, Sample>, id: u64, kind: Kind)
    requires { 0 < spare values.old }
    ensures entries { values.new.entries ≡ with_first kind values.old.entries id }
    ensures spare { spare values.old ≤ spare values.new + 1 }
{
    if let Some(sample) = kind.first_sample() {
        put(values, id, sample);
    }
}

/// Puts the first value of a kind in for each of these numbers, for which there is room.
fn put_firsts(values: &mut IndexMap<u64, Sample>, first: u64, end: u64, kind: Kind)
    requires ordered { first ≤ end }
    requires room { end - first ≤ spare values.old }
    ensures { values.new.entries ≡ with_firsts kind values.old.entries first (end - first) }
{
    for id in first..end {
        put_first(values, id, kind);
    }
}

/// Numbers the children that are missing from this number on, all or none. Returns the number after the last.
fn number_missing(
    children: &mut BTreeMap<Text, u64>,
    labels: &[Text],
    next: u64,
) -> Result<u64, NoMemory>
    ensures numbered { IfOk result (λ end. numbered children.old.entries next labels.now ≡ (children.new.entries, end)) }
    ensures few { IfOk result (λ end. (next ≤ end) × (end ≤ next + length labels.now)) }
    ensures refused { OnErr result (children.new.entries ≡ children.old.entries) }
{
    let Some((label, rest)) = labels.split_first() else {
        return Ok(next);
    };
    if children.contains_key(label) {
        return number_missing(children, rest, next);
    }
    let after = next.checked_add(1).ok_or(NoMemory)?;
    children.insert(label.clone_value()?, next)?;
    let end = number_missing(children, rest, after);
    if end.is_err() {
        children.remove(label);
    }
    end
}

/// Puts a metric into the family of its name, which is made where it is missing.
fn join(
    alloc: Global,
    families: &mut BTreeMap<Text, Family>,
    name: Text,
    help: &str,
    kind: Kind,
    attributes: Pairs,
    id: u64,
) -> Result<(), NoMemory>
    ensures joined { OnOk result (families.new.entries ≡ with_member families.old.entries name help.now kind attributes id) }
    ensures refused { OnErr result (families.new.entries ≡ families.old.entries) }
{
    match families.get_mut(&name) {
        Some(family) => {
            family.members.insert(attributes, id)?;
        }
        None => {
            let help = Text::of(String::from_str(alloc, help)?);
            let mut members = IndexMap::new(alloc);
            members.insert(attributes, id)?;
            families.insert(
                name,
                Family {
                    help,
                    kind,
                    members,
                },
            )?;
        }
    }
    Ok(())
}

/// Removes the values of these children.
fn forget(values: &mut IndexMap<u64, Sample>, children: &BTreeMap<Text, u64>)
    ensures { values.new.entries ≡ fold without_value values.old.entries (values_of children.now.entries) }
{
    for child in children.values() {
        values.swap_remove(child);
    }
}

/// Takes the metric with these attributes out of the family of its name.
fn leave(families: &mut BTreeMap<Text, Family>, name: &Text, attributes: &Pairs)
    ensures left { families.new.entries ≡ without_member families.old.entries name.now attributes.now }
    ensures change { ChangesOne families.old.entries families.new.entries name.now attributes.now None }
{
    let Some(family) = families.get_mut(name) else {
        return;
    };
    family.members.swap_remove(attributes);
    if family.members.is_empty() {
        families.remove(name);
    }
}

impl Home for Registry {
    ghost counts = { λ old id change new. new ≡ counted old id change };

    ghost levels = { λ old id change new. new ≡ levelled old id change };

    fn add_counter(&mut self, id: u64, change: u64) {
        if let Some(sample) = self.values.get_mut(&id) {
            *sample = sample.counted(change);
        }
    }

    fn add_gauge(&mut self, id: u64, change: i64) {
        if let Some(sample) = self.values.get_mut(&id) {
            *sample = sample.levelled(change);
        }
    }
}
