//! What a call with its reply does to each part.

ghost use Rattle.std.specs.Prelude.{◌≡◌, ◌++◌, [], OnOk};
ghost use Rattle.rt_model.specs.Effects.{alarms_called, label_at, labels_called, marks_called, nodes_called, ready_called, results_called, running_called, slots_called};
ghost use Rattle.rt_walk.specs.Signaled.{due_beside};

use crate::marks::{add_due, flag};
use crate::nodes::Nodes;
use crate::results::{note_abort, set_outcome};
use crate::running::Running;
use crate::table::Table;
use crate::told_alarms::ToldAlarms;
use rt_audit::{Call, CallReply};
use rt_base::{NoMemory, Packed, Text, prefixed_name};
use rt_model::{Mark, Outcome, TaskResult};
use rt_parts::WalkedSlots;
use std::alloc::Global;

/// Takes a call with its reply into the tasks that run.
pub fn call_running(running: &mut Running, call: &Call, reply: &CallReply) -> Result<(), NoMemory>
    ensures { OnOk result (running.new ≡ running_called running.old call.now reply.now) }
{
    match (call, reply) {
        (Call::Spawn { .. }, CallReply::TaskAt { task, .. }) => running.add(*task),
        _ => Ok(()),
    }
}

/// Takes a call with its reply into the ready list.
pub fn call_ready(ready: &mut Vec<u64>, call: &Call, reply: &CallReply) -> Result<(), NoMemory>
    ensures { OnOk result (ready.new.items ≡ ready_called ready.old.items call.now reply.now) }
{
    match (call, reply) {
        (Call::Spawn { .. }, CallReply::TaskAt { task, .. }) => ready.push(*task)?,
        _ => {}
    }
    Ok(())
}

/// Takes a call with its reply into the alarms.
pub fn call_alarms(
    alarms: &mut ToldAlarms,
    by: Option<u64>,
    call: &Call,
    reply: &CallReply,
) -> Result<(), NoMemory>
    ensures { OnOk result (alarms.new ≡ alarms_called alarms.old by call.now reply.now) }
{
    match (call, reply) {
        (Call::SleepPoll { due }, CallReply::PendingAt { alarm }) => {
            alarms.sleep(by, due.nanos(), *alarm)
        }
        _ => Ok(()),
    }
}

/// Takes a call with its reply into the nodes. The spawned task's own context stands on a child of its node, which is
/// made first.
pub fn call_nodes(nodes: &mut Nodes, call: &Call, reply: &CallReply) -> Result<(), NoMemory>
    ensures { OnOk result (nodes.new ≡ nodes_called nodes.old call.now reply.now) }
{
    match (call, reply) {
        (Call::Child { node, .. }, CallReply::NodeAt { node: number, .. }) => {
            nodes.add_child(*number, *node)?;
        }
        (Call::CloseNode { node }, CallReply::Done) | (Call::Spawn { node }, CallReply::Closed) =>
            nodes.release(*node),
        (Call::Spawn { node }, CallReply::TaskAt { task, node: number }) => {
            nodes.add_child(*number, *node)?;
            nodes.put_task(*node, *task);
        }
        _ => {}
    }
    Ok(())
}

/// Takes a call with its reply into the labels.
pub fn call_labels(
    alloc: Global,
    labels: &mut Table<Text>,
    call: &Call,
    reply: &CallReply,
) -> Result<(), NoMemory>
    ensures { OnOk result (labels.new ≡ labels_called labels.old call.now reply.now) }
{
    match (call, reply) {
        (Call::Child { node, label }, CallReply::NodeAt { node: number, .. }) => {
            let full = prefixed_name(alloc, label_at(labels, *node), label.as_str())?;
            labels.push(*number, Text::of(full))
        }
        (Call::Spawn { node }, CallReply::TaskAt { node: number, .. }) => {
            let label = label_at(labels, *node).to_owned(alloc)?;
            labels.push(*number, Text::of(label))
        }
        _ => Ok(()),
    }
}

/// Returns the label of a node.
pub fn label_at(labels: &Table<Text>, node: u64) -> &str
    ensures { result.now ≡ label_at labels.now node }
{
    match labels.find(node) {
        Some(label) => label.as_str(),
        None => "",
    }
}

/// Takes a call with its reply into the marks.
pub fn call_marks(marks: &mut Table<Mark>, call: &Call, reply: &CallReply) -> Result<(), NoMemory>
    ensures { OnOk result (marks.new ≡ marks_called marks.old call.now reply.now) }
{
    match (call, reply) {
        (Call::Spawn { node }, CallReply::TaskAt { task, .. }) => {
            let mark = Mark {
                node: Packed::new(*node),
                left: false,
                flagged: false,
            };
            marks.push(*task, mark)?;
        }
        (Call::Abort { task }, CallReply::Done) | (Call::AbortTask { task }, CallReply::Done) =>
            flag(marks, *task),
        _ => {}
    }
    Ok(())
}

/// Takes a call with its reply into the results.
pub fn call_results(
    results: &mut Table<TaskResult>,
    by: Option<u64>,
    call: &Call,
    reply: &CallReply,
) -> Result<(), NoMemory>
    ensures { OnOk result (results.new ≡ results_called results.old by call.now reply.now) }
{
    match (call, reply) {
        (Call::Spawn { .. }, CallReply::TaskAt { task, .. }) => {
            let fresh = TaskResult {
                outcome: Outcome::Open { waits: None },
                aborted: false,
            };
            results.push(*task, fresh)?;
        }
        (Call::Abort { task }, CallReply::Done) => note_abort(results, *task),
        (Call::Join { task }, CallReply::Pending) => {
            set_outcome(results, *task, Outcome::Open { waits: by });
        }
        (Call::Join { task }, CallReply::Ready) => set_outcome(results, *task, Outcome::Closed),
        (Call::GiveUp { task }, CallReply::Done) => results.remove(*task),
        _ => {}
    }
    Ok(())
}

/// The slots.
pub fn call_slots(
    slots: &mut WalkedSlots,
    by: Option<u64>,
    call: &Call,
    reply: &CallReply,
) -> Result<(), NoMemory>
    ensures { OnOk result (slots.new ≡ slots_called slots.old by call.now reply.now) }
{
    match call {
        Call::Slots(call) => {
            let _waiter = slots.call(by, *call, reply)?;
        }
        _ => {}
    }
    Ok(())
}

/// Adds whom the call must wake.
pub fn add_due_called(
    closing: bool,
    marks: &Table<Mark>,
    slots: &WalkedSlots,
    call: &Call,
    reply: &CallReply,
    due: &mut Vec<u64>,
) -> Result<(), NoMemory>
    ensures { OnOk result (due.new.items ≡ due.old.items ++ due_beside closing marks.now slots.now call.now reply.now) }
{
    if closing {
        return Ok(());
    }
    match (call, reply) {
        (Call::Wake { task }, CallReply::Done) => due.push(*task)?,
        (Call::Abort { task }, CallReply::Done) | (Call::AbortTask { task }, CallReply::Done) =>
            add_due(marks, *task, due)?,
        (Call::Slots(call), reply) => {
            if let Some(task) = slots.wakes(*call, reply) {
                due.push(task)?;
            }
        }
        _ => {}
    }
    Ok(())
}
