// Each call once, how ends reach down a tree, and many of each.
use crate::told::{holds, same};
use rt_base::{MAX_TIME, Poll};
use rt_super::{Alarms, NOBODY, Slots, Tree};
use std::alloc::Global;
use std::process::Abort;

/// A child with a task on it.
fn grow(rt: &impl Abort, tree: &mut Tree, parent: u64, task: u64) -> u64 {
    let (node, _) = tree.child(parent).expect(rt, "room");
    let _ = tree.register(node, task).expect(rt, "room");
    node
}

fn tree(rt: &impl Abort, alloc: Global) -> Tree {
    Tree::new(alloc).expect(rt, "room")
}

/// The next task that is flagged.
fn flags(rt: &impl Abort, tree: &mut Tree, task: Option<u64>) {
    same(rt, "a flag", tree.next_flag(), task);
}

fn ends(rt: &impl Abort, tree: &Tree, node: u64, ended: bool) {
    same(rt, "an end", tree.is_ended(node), ended);
}

#[test]
fn surface(rt: HostRuntime) {
    surface_of_tree(&rt, rt.alloc());
    surface_of_alarms(&rt, rt.alloc());
    surface_of_slots(&rt, rt.alloc());
}

fn surface_of_tree(rt: &impl Abort, alloc: Global) {
    let mut tree = tree(rt, alloc);
    let root = tree.root();
    let child = grow(rt, &mut tree, root, 7);
    same(rt, "its task", tree.task_of(child), Some(7));
    tree.end(child);
    flags(rt, &mut tree, Some(7));
    ends(rt, &tree, child, true);
    holds(rt, "it lives", tree.lives(child));
    tree.release(child);
    ends(rt, &tree, child, false);
    holds(rt, "it is gone", !tree.lives(child) & tree.has_ended(child));
    holds(rt, "the root is there", !tree.is_over());
    tree.end(root);
    ends(rt, &tree, root, true);
    holds(rt, "all is over", tree.is_over());
}

/// Sets an alarm, which gets this number.
fn set(rt: &impl Abort, alarms: &mut Alarms, due: u128, task: u64, number: u64) {
    same(rt, "a number", alarms.set(due, task).ok(), Some(number));
}

fn pops(rt: &impl Abort, alarms: &mut Alarms, now: u128, wanted: Option<(u64, u64)>) {
    same(rt, "one that is due", alarms.pop_due(now), wanted);
}

fn surface_of_alarms(rt: &impl Abort, alloc: Global) {
    let mut alarms = Alarms::new(alloc);
    holds(rt, "none", alarms.is_empty());
    set(rt, &mut alarms, 30, 1, 0);
    alarms.rewake(0, 2);
    same(rt, "the earliest", alarms.earliest(), Some(30));
    same(rt, "when it is due", alarms.due_of(0), Some(30));
    same(rt, "none at 29", alarms.due(29), None);
    pops(rt, &mut alarms, 29, None);
    same(rt, "one at 30", alarms.due(30), Some(0));
    pops(rt, &mut alarms, 30, Some((0, 2)));
    set(rt, &mut alarms, 40, NOBODY, 1);
    let counts = (alarms.len(), alarms.count());
    same(rt, "set and ever set", counts, (1, 2));
    pops(rt, &mut alarms, 40, Some((1, NOBODY)));
    set(rt, &mut alarms, 60, 1, 2);
    set(rt, &mut alarms, 50, 3, 3);
    set(rt, &mut alarms, 70, 4, 4);
    alarms.rewake(2, 5);
    pops(rt, &mut alarms, 60, Some((3, 3)));
    pops(rt, &mut alarms, 60, Some((2, 5)));
    let last = (alarms.len(), alarms.due_of(4));
    same(rt, "the last", last, (1, Some(70)));
    alarms.clear();
    holds(rt, "none once more", alarms.is_empty());
}

/// Polls a slot in the name of a task.
fn polls(rt: &impl Abort, slots: &mut Slots<u64>, slot: u64, task: u64, wanted: Poll<Option<u64>>) {
    assert!(rt; slots.holds(slot));
    same(rt, "a poll", slots.poll(slot, task), wanted);
}

fn add(rt: &impl Abort, slots: &mut Slots<u64>, number: u64) {
    same(rt, "a slot", slots.add().ok(), Some(number));
    holds(rt, "it is held", slots.holds(number));
}

fn surface_of_slots(rt: &impl Abort, alloc: Global) {
    let mut slots: Slots<u64> = Slots::new(alloc);
    add(rt, &mut slots, 0);
    polls(rt, &mut slots, 0, 3, Poll::Pending);
    same(rt, "who waits", slots.put(0, 9), Some(3));
    polls(rt, &mut slots, 0, 3, Poll::Ready(Some(9)));
    polls(rt, &mut slots, 0, 3, Poll::Ready(None));
    same(rt, "a close", slots.close(0), None);
    same(rt, "an abort", slots.abort(0), None);
    holds(rt, "it is aborted", slots.is_aborted(0));
    polls(rt, &mut slots, 0, NOBODY, Poll::Ready(None));
    slots.give_up(0);
    holds(rt, "it is given up", !slots.holds(0));
}

#[test]
fn child_ends_with_its_parent(rt: HostRuntime) {
    let mut tree = tree(&rt, rt.alloc());
    let first = grow(&rt, &mut tree, 0, 1);
    let inner = grow(&rt, &mut tree, first, 2);
    let second = grow(&rt, &mut tree, 0, 3);
    let last = grow(&rt, &mut tree, inner, 4);
    let other = grow(&rt, &mut tree, first, 5);
    tree.end(first);
    flags(&rt, &mut tree, Some(1));
    flags(&rt, &mut tree, Some(2));
    flags(&rt, &mut tree, Some(4));
    flags(&rt, &mut tree, Some(5));
    flags(&rt, &mut tree, None);
    ends(&rt, &tree, last, true);
    ends(&rt, &tree, other, true);
    ends(&rt, &tree, second, false);
}

#[test]
fn deep_chain_is_flagged(rt: HostRuntime) {
    let mut tree = tree(&rt, rt.alloc());
    let mut last = 0;
    for task in 0..50_000 {
        last = grow(&rt, &mut tree, last, task);
    }
    tree.end(0);
    for task in 0..50_000 {
        flags(&rt, &mut tree, Some(task));
    }
    flags(&rt, &mut tree, None);
    ends(&rt, &tree, last, true);
}

/// A new child of a node, which is ended or not.
fn comes(rt: &impl Abort, tree: &mut Tree, parent: u64, ended: bool) -> u64 {
    let (node, told) = tree.child(parent).expect(rt, "room");
    same(rt, "an ended child", told, ended);
    ends(rt, tree, node, ended);
    node
}

#[test]
fn children_come_while_flags_are_pending(rt: HostRuntime) {
    let mut tree = tree(&rt, rt.alloc());
    let first = comes(&rt, &mut tree, 0, false);
    for task in 0..1_000 {
        let _ = grow(&rt, &mut tree, first, task);
    }
    tree.end(first);
    for task in 0..1_000 {
        let _ = comes(&rt, &mut tree, first, true);
        let _ = comes(&rt, &mut tree, 0, false);
        flags(&rt, &mut tree, Some(task));
    }
    flags(&rt, &mut tree, None);
}

/// Whom the alarm of this number wakes.
fn woken_by(number: u64) -> u64 {
    if number & 1 == 0 { number } else { NOBODY }
}

/// When the alarm of this number is due.
fn due_by(number: u64, by: (u64, u64)) -> u64 {
    let (factor, mask) = by;
    number.wrapping_mul(factor) & mask
}

/// The time and number of the next alarm, which goes off behind the last.
fn next(rt: &impl Abort, alarms: &mut Alarms, last: (u64, u64), by: (u64, u64)) -> (u64, u64) {
    let (number, task) = alarms.pop_due(4_095).expect(rt, "one that is due");
    let next = (due_by(number, by), number.wrapping_add(1));
    assert!(rt; last < next && task == woken_by(number), "{number}");
    next
}

/// Sets alarms by a factor and a mask of their numbers.
fn go_off_in_order(rt: &impl Abort, alloc: Global, by: (u64, u64)) {
    let mut alarms = Alarms::new(alloc);
    for number in 0..2_000 {
        let due = due_by(number, by) as u128;
        set(rt, &mut alarms, due, woken_by(number), number);
    }
    set(rt, &mut alarms, MAX_TIME, NOBODY, 2_000);
    let mut last = (0, 0);
    for _ in 0..2_000 {
        last = next(rt, &mut alarms, last, by);
    }
    pops(rt, &mut alarms, 4_095, None);
    pops(rt, &mut alarms, MAX_TIME, Some((2_000, NOBODY)));
    set(rt, &mut alarms, MAX_TIME, 1, 2_001);
    alarms.clear();
    set(rt, &mut alarms, MAX_TIME, 1, 2_002);
}

#[test]
fn many_alarms_go_off_in_order(rt: HostRuntime) {
    go_off_in_order(&rt, rt.alloc(), (1, 4_095));
    go_off_in_order(&rt, rt.alloc(), (0, 4_095));
    go_off_in_order(&rt, rt.alloc(), (u64::MAX, 4_095));
    go_off_in_order(&rt, rt.alloc(), (2_654_435_761, 1_023));
}

/// What becomes of a slot, by its number, and who waited.
fn changed(slots: &mut Slots<u64>, number: u64) -> Option<u64> {
    match number % 5 {
        0 => slots.close(number),
        1 => slots.abort(number),
        2 => slots.put(number, number),
        3 => {
            slots.give_up(number);
            Some(number)
        }
        _ => Some(number),
    }
}

/// What a slot answers then.
fn answered(slot: u64) -> Poll<Option<u64>> {
    match slot % 5 {
        0 | 1 => Poll::Ready(None),
        2 => Poll::Ready(Some(slot)),
        _ => Poll::Pending,
    }
}

#[test]
fn slots_come_beside_slots_of_all_kinds(rt: HostRuntime) {
    let mut slots: Slots<u64> = Slots::new(rt.alloc());
    for number in 0..5_000 {
        add(&rt, &mut slots, number);
        polls(&rt, &mut slots, number, number, Poll::Pending);
        same(&rt, "who waited", changed(&mut slots, number), Some(number));
    }
    for slot in 0..5_000 {
        same(&rt, "is held", slots.holds(slot), slot % 5 != 3);
        if slots.holds(slot) {
            polls(&rt, &mut slots, slot, NOBODY, answered(slot));
        }
    }
}
