//! Labels of tasks.
ghost use Rattle.std.specs.Prelude.{◌≡◌, IfOk, [], ◌∷◌, codes, string_bytes};
ghost use Rattle.rt_metrics.specs.Labels.{kind_name, execution_name, execution_of, task_pairs};

use crate::label_set::LabelSet;
use crate::labels::label;
use rt_base::{NoMemory, Text};
use std::alloc::Global;

/// Whether a task is the root.
#[derive(Clone, Copy, Debug, PartialEq, Eq, Hash)]
pub enum Kind {
    Root,
    Task,
}

/// Where a task asked to run.
#[derive(Clone, Copy, Debug, PartialEq, Eq, Hash)]
pub enum Execution {
    /// Among the other tasks.
    Shared,
    /// Among the other tasks, and it may block.
    SharedBlocking,
    /// On a thread of its own.
    Dedicated,
}

/// The labels of a task: its name, its kind and where it asked to run.
#[derive(Debug, Drop)]
pub struct Label {
    name: Text,
    kind: Kind,
    execution: Execution,
}

impl Kind {
    fn name(self) -> &'static str
        ensures { result.now ≡ kind_name self }
    {
        match self {
            Kind::Root => "Root",
            Kind::Task => "Task",
        }
    }
}

impl Execution {
    fn name(self) -> &'static str
        ensures { result.now ≡ execution_name self }
    {
        match self {
            Execution::Shared => "Shared",
            Execution::SharedBlocking => "SharedBlocking",
            Execution::Dedicated => "Dedicated",
        }
    }
}

impl Label {
    /// Returns the label of the root, which has no name.
    pub fn root(alloc: Global) -> Self
        ensures { task_pairs result ≡ (codes "name", []) ∷ (codes "kind", codes "Root") ∷ (codes "execution", codes "Shared") ∷ [] }
    {
        Label {
            name: Text::of(String::new(alloc)),
            kind: Kind::Root,
            execution: Execution::Shared,
        }
    }

    /// Returns the label of any other task than the root.
    pub fn task(name: String, execution: rt_base::Execution) -> Self
        ensures { task_pairs result ≡ (codes "name", string_bytes name) ∷ (codes "kind", codes "Task") ∷ (codes "execution", execution_name (execution_of execution)) ∷ [] }
    {
        Label {
            name: Text::of(name),
            kind: Kind::Task,
            execution: execution_of(execution),
        }
    }

    /// Returns the name of the task.
    pub fn name(&self) -> &str
        ensures { result.now ≡ self.now.name }
    {
        self.name.as_str()
    }

    /// Returns an equal label.
    pub fn clone_value(&self) -> Result<Self, NoMemory>
        ensures { IfOk result (λ label. label ≡ self.now) }
    {
        Ok(Label {
            name: self.name.clone_value()?,
            kind: self.kind,
            execution: self.execution,
        })
    }
}

/// Where a task of this setting asked to run.
fn execution_of(execution: rt_base::Execution) -> Execution
    ensures { result ≡ execution_of execution }
{
    match execution {
        rt_base::Execution::Dedicated => Execution::Dedicated,
        rt_base::Execution::Shared(true) => Execution::SharedBlocking,
        rt_base::Execution::Shared(false) => Execution::Shared,
    }
}

impl LabelSet for Label {
    ghost pairs = { task_pairs };

    fn labels(&self, alloc: Global) -> Result<Vec<(Text, Text)>, NoMemory> {
        let mut labels = Vec::new(alloc);
        labels.push(label(alloc, "name", self.name.as_str())?)?;
        labels.push(label(alloc, "kind", self.kind.name())?)?;
        labels.push(label(alloc, "execution", self.execution.name())?)?;
        Ok(labels)
    }
}
