//! Flags of tasks.

ghost use Rattle.std.specs.Prelude.{◌≡◌, ◌≤◌, ◌+◌};
ghost use Rattle.rt_model.specs.Lists.{find};
ghost use Rattle.rt_model.specs.Marks.{flag, flag_all, is_flagged, is_left, leave};
ghost use Rattle.rt_model.specs.Effects.{unflagged};
ghost use Rattle.rt_model.specs.Rows.{total};
ghost use Rattle.rt_machine.specs.Places.{mark_places, ones};
ghost use Rattle.rt_machine.specs.News.{is_new};

use rt_model::{Mark, Table};
use rt_super::Tree;

/// Returns whether a task is flagged.
pub fn is_flagged(marks: &Table<Mark>, task: u64) -> bool
    ensures { result ≡ is_flagged (find task marks.now.items) }
{
    match marks.get(task) {
        None => false,
        Some(mark) => mark.flagged,
    }
}

/// Flags a task, and returns whether it was left pending.
#[tactic(auto, using(crate::proofs::Changed::change_laws, crate::proofs::Totals::place_laws))]
pub fn flag(marks: &mut Table<Mark>, task: u64) -> bool
    ensures left { result ≡ is_left (find task marks.old.items) }
    ensures items { marks.new.items ≡ flag task marks.old.items }
    ensures places { total mark_places marks.new.items + ones result ≡ total mark_places marks.old.items }
    ensures next { marks.new.next ≡ marks.old.next }
    ensures spare { marks.new.spare ≡ marks.old.spare }
{
    let Some(mark) = marks.get(task) else {
        return false;
    };
    marks.set(
        task,
        Mark {
            node: mark.node,
            left: false,
            flagged: true,
        },
    );
    mark.left
}

/// Notes that a task is left pending, and returns whether it wasn't before.
#[tactic(auto, using(crate::proofs::Changed::change_laws, crate::proofs::Totals::place_laws))]
pub fn leave(marks: &mut Table<Mark>, task: u64) -> bool
    ensures fresh { result ≡ is_new (find task marks.old.items) }
    ensures places { total mark_places marks.new.items ≡ total mark_places marks.old.items + ones result }
    ensures items { marks.new.items ≡ leave task marks.old.items }
    ensures next { marks.new.next ≡ marks.old.next }
    ensures spare { marks.new.spare ≡ marks.old.spare }
{
    match marks.get(task) {
        None => false,
        Some(mark) => {
            marks.set(task, Mark { left: true, ..mark });
            !mark.left
        }
    }
}

/// Flags the tasks of the nodes that have ended, and wakes none.
pub fn flag_all(tree: &mut Tree, marks: &mut Table<Mark>)
    ensures items { marks.new.items ≡ flag_all tree.old.flags marks.old.items }
    ensures next { marks.new.next ≡ marks.old.next }
    ensures spare { marks.new.spare ≡ marks.old.spare }
    ensures places { total mark_places marks.new.items ≤ total mark_places marks.old.items }
    ensures tree { tree.new ≡ unflagged tree.old }
{
    while let Some(task) = tree.next_flag() {
        let _left = flag(marks, task);
    }
}
