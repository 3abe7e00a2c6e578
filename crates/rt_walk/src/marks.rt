//! What happens to the marks of tasks.

ghost use Rattle.std.specs.Prelude.{◌≡◌, ◌++◌, OnOk};
ghost use Rattle.rt_model.specs.Lists.{find};
ghost use Rattle.rt_model.specs.Marks.{is_flagged, is_left, is_ended_at, flag, flag_all, due_of, due_all, leave};
ghost use Rattle.rt_model.specs.Effects.{released, marks_ended, unmarked};

use crate::nodes::Nodes;
use crate::table::Table;
use rt_base::NoMemory;
use rt_model::Mark;

/// Returns whether a task is flagged.
pub fn is_flagged(marks: &Table<Mark>, task: u64) -> bool
    ensures { result ≡ is_flagged (find task marks.now) }
{
    match marks.get(task) {
        Some(mark) => mark.flagged,
        None => false,
    }
}

/// Whether a task was left pending since a flag last woke it.
fn is_left(marks: &Table<Mark>, task: u64) -> bool
    ensures { result ≡ is_left (find task marks.now) }
{
    match marks.get(task) {
        Some(mark) => mark.left,
        None => false,
    }
}

/// Returns whether the node of a task has ended. The root has none of its own.
pub fn is_ended_at(nodes: &Nodes, marks: &Table<Mark>, task: u64) -> bool
    ensures { result ≡ is_ended_at nodes.now (find task marks.now) }
{
    match marks.get(task) {
        Some(mark) => nodes.is_ended(mark.node.get()),
        None => true,
    }
}

/// Sets the flag of a task.
#[tactic(auto, using(crate::proofs::Tables::table_laws))]
pub fn flag(marks: &mut Table<Mark>, task: u64)
    ensures { marks.new ≡ flag task marks.old }
{
    if let Some(mark) = marks.get(task) {
        let node = mark.node;
        marks.replace(
            task,
            Mark {
                node,
                left: false,
                flagged: true,
            },
        );
    }
}

/// Says that a task was left pending.
#[tactic(auto, using(crate::proofs::Tables::table_laws))]
pub fn leave(marks: &mut Table<Mark>, task: u64)
    ensures { marks.new ≡ leave task marks.old }
{
    if let Some(mark) = marks.get(task) {
        let mark = Mark { left: true, ..mark };
        marks.replace(task, mark);
    }
}

/// Adds the task where the flag wakes it.
pub fn add_due(marks: &Table<Mark>, task: u64, due: &mut Vec<u64>) -> Result<(), NoMemory>
    ensures { OnOk result (due.new.items ≡ due.old.items ++ due_of task marks.now) }
{
    if is_left(marks, task) {
        due.push(task)?;
    }
    Ok(())
}

/// Sets the flags of these tasks, and adds those whom their flags wake.
pub fn flag_all(marks: &mut Table<Mark>, tasks: &[u64], due: &mut Vec<u64>) -> Result<(), NoMemory>
    ensures marks { OnOk result (marks.new ≡ flag_all tasks.now marks.old) }
    ensures due { OnOk result (due.new.items ≡ due.old.items ++ due_all tasks.now marks.old) }
{
    let mut rest = tasks;
    while let Some((task, later)) = rest.split_first() {
        add_due(marks, *task, due)?;
        flag(marks, *task);
        rest = later;
    }
    Ok(())
}

/// Gives the node of a task up.
pub fn release(nodes: &mut Nodes, marks: &Table<Mark>, task: u64)
    ensures { nodes.new ≡ released (find task marks.now) nodes.old }
{
    if let Some(mark) = marks.get(task) {
        nodes.release(mark.node.get());
    }
}

/// Takes the mark of a task out, where this is so.
pub fn remove_if(is: bool, marks: &mut Table<Mark>, task: u64)
    ensures { marks.new ≡ marks_ended is task marks.old }
{
    if is {
        marks.remove(task);
    }
}

/// Takes the mark of the task that leaves out.
pub fn remove_left(marks: &mut Table<Mark>, task: Option<u64>)
    ensures { marks.new ≡ unmarked task marks.old }
{
    if let Some(task) = task {
        marks.remove(task);
    }
}
