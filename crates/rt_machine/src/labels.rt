//! The labels of nodes.

ghost use Rattle.std.specs.Prelude.{◌≡◌, ◌≤◌, ◌<◌, ◌+◌, ◌∷◌, ◌++◌, [], length, IfOk, IsOk, OnOk};
ghost use Rattle.rt_model.specs.Effects.{label_at};
ghost use Rattle.rt_model.specs.Events.{task_fields};

use rt_audit::{EventFields, Label, ShortLabel};
use rt_base::{NoMemory, SmallText};
use std::alloc::Global;
use std::marker::Model;

/// The label of a node, in place where it is short: each visit reads one, in a shuffled order, and a label behind a
/// place and a pointer would be three misses of the cache.
#[derive(Drop)]
pub enum NodeLabel {
    Short(ShortLabel),
    /// The place of a long one among the long texts. The node of a spawned task shares that of its context.
    Long(usize),
}

/// The labels of nodes, by their numbers, and the texts of the long ones.
#[derive(Drop)]
pub struct Labels {
    labels: Vec<NodeLabel>,
    longs: Vec<SmallText>,
}

impl Model for Labels {
    ghost use Rattle.std.specs.Prelude.{◌-◌, length, min, vec_len, vec_capacity};
    ghost use Rattle.std.specs.List.{All};
    ghost use Rattle.rt_machine.specs.Labels.{Labelled, IsLong, IsThere, numbered, labelled};

    ghost Value = { Labelled };

    ghost view = { λ l. record { items = numbered 0 (labelled l.longs.items l.labels.items); count = vec_len l.labels; spare = min (vec_capacity l.longs - vec_len l.longs) (vec_capacity l.labels - vec_len l.labels) } };

    ghost invariant = { λ l. All (IsThere (length l.longs.items)) l.labels.items × All IsLong l.longs.items };
}

#[tactic(auto, using(crate::proofs::Numbered::label_laws))]
impl Labels {
    /// Makes a list of no labels.
    pub fn new(alloc: Global) -> Self
        ensures items { result.items ≡ [] }
        ensures count { result.count ≡ 0 }
    {
        Labels {
            labels: Vec::new(alloc),
            longs: Vec::new(alloc),
        }
    }

    /// Takes room for this many further labels.
    pub fn reserve(&mut self, places: usize) -> Result<(), NoMemory>
        ensures items { self.new.items ≡ self.old.items }
        ensures count { self.new.count ≡ self.old.count }
        ensures room { OnOk result (places ≤ self.new.spare) }
    {
        self.labels.reserve(places)?;
        self.longs.reserve(places)?;
        Ok(())
    }

    /// Returns the label of a node. That of a node that was never made is empty.
    pub fn get(&self, node: u64) -> &str
        ensures { result.now ≡ label_at self.now.items node }
    {
        match self.labels.get(node as usize) {
            Some(NodeLabel::Short(label)) => label.as_str(),
            Some(NodeLabel::Long(place)) => self.longs[*place].as_str(),
            None => "",
        }
    }

    /// Returns the fields of the event of a task's visit, where the task has this node's label. A label of at most 22
    /// bytes takes no memory.
    #[inline(always)]
    pub fn visit_fields(&self, task: u64, node: u64) -> Result<EventFields, NoMemory>
        ensures fields { IfOk result (λ fields. fields ≡ task_fields task (label_at self.now.items node)) }
        ensures short { length (label_at self.now.items node) ≤ 22 → IsOk result }
    {
        match self.labels.get(node as usize) {
            Some(NodeLabel::Short(label)) => Ok(EventFields::of_short_task(task, label.copy())),
            Some(NodeLabel::Long(place)) => {
                let label = Label::of(*self.labels.allocator(), self.longs[*place].as_str())?;
                Ok(EventFields::of_task(task, label))
            }
            None => Ok(EventFields::of_short_task(task, ShortLabel::empty())),
        }
    }

    /// Adds the label of the next node.
    pub fn push(&mut self, label: SmallText)
        requires { 0 < self.old.spare }
        ensures items { self.new.items ≡ self.old.items ++ (self.old.count, label) ∷ [] }
        ensures count { self.new.count ≡ self.old.count + 1 }
    {
        match label.short() {
            Some(short) => self.push_short(short.copy()),
            None => self.push_long(label),
        }
    }

    fn push_short(&mut self, label: ShortLabel)
        requires { 0 < self.old.spare }
        ensures items { self.new.items ≡ self.old.items ++ (self.old.count, label) ∷ [] }
        ensures count { self.new.count ≡ self.old.count + 1 }
    {
        self.labels.push_reserved(NodeLabel::Short(label));
    }

    fn push_long(&mut self, label: SmallText)
        requires spare { 0 < self.old.spare }
        requires long { 22 < length label }
        ensures items { self.new.items ≡ self.old.items ++ (self.old.count, label) ∷ [] }
        ensures count { self.new.count ≡ self.old.count + 1 }
    {
        let place = self.longs.len();
        self.longs.push_reserved(label);
        self.labels.push_reserved(NodeLabel::Long(place));
    }

    /// Gives the next node the label of this one.
    pub fn repeat(&mut self, node: u64)
        requires { 0 < self.old.spare }
        ensures items { self.new.items ≡ self.old.items ++ (self.old.count, label_at self.old.items node) ∷ [] }
        ensures count { self.new.count ≡ self.old.count + 1 }
    {
        match self.labels.get(node as usize) {
            Some(NodeLabel::Short(label)) => {
                let label = label.copy();
                self.push_short(label);
            }
            Some(NodeLabel::Long(place)) => {
                let place = *place;
                self.labels.push_reserved(NodeLabel::Long(place));
            }
            None => self.push_short(ShortLabel::empty()),
        }
    }
}
