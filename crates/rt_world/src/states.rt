//! The states of the tasks of a world, each in a block of its own.

ghost use Rattle.std.specs.Prelude.{◌≡◌, ◌≤◌, ◌<◌, ◌+◌, ◌^◌, [], None, OnOk, IfOk, IfSome, IfNone, is_some, length, slice_get, vec_capacity, vec_len};
ghost use Rattle.rt_model.specs.Causes.{ends_next};
ghost use Rattle.rt_model.specs.Lists.{find, without};
ghost use Rattle.rt_model.specs.Turns.{with_task};
ghost use Rattle.rt_world.specs.Seats.{numbers_of, with_top};

use crate::tasks::Tasks;
use crate::{Depth, Task};
use rt_base::NoMemory;
use std::alloc::Global;
use std::marker::Model;

/// The states of the tasks, by number, each in a block of its own. A state is taken out for each visit and put back
/// then, so no more moves than where its block is, however large the state. A small state pays for a block once.
pub(crate) struct States<T> {
    blocks: Tasks<Vec<T>>,
}

impl<T> Model for States<T> {
    ghost use Rattle.std.specs.Prelude.{ℕ};
    ghost use Rattle.rt_world.specs.Seats.{Roomed, AreFull, held_in};

    ghost Value = { Roomed (ℕ × T) };

    ghost view = { λ s. record { items = held_in s.blocks.items; first = s.blocks.first; next = s.blocks.next; spare = s.blocks.spare } };

    ghost invariant = { λ s. AreFull s.blocks.items };
}

/// A block for a state.
pub(crate) fn block_of<T>(alloc: Global) -> Result<Vec<T>, NoMemory>
    ensures empty { IfOk result (λ block. block.items ≡ []) }
    ensures room { IfOk result (λ block. vec_len block < vec_capacity block) }
{
    match Vec::with_capacity(alloc, 1) {
        Ok(block) => Ok(block),
        Err(_) => Err(NoMemory),
    }
}

#[tactic(auto, using(crate::proofs::Blocks::block_laws))]
impl<T> States<T> {
    /// Makes a list of no tasks, whose first number is this one.
    #[tactic(auto, unfolding(crate::specs::Seats::held_in, crate::specs::Seats::AreFull))]
    pub fn new(alloc: Global, first: u64) -> Self
        ensures items { result.items ≡ [] }
        ensures first { result.first ≡ first }
        ensures next { result.next ≡ first }
    {
        States {
            blocks: Tasks::new(alloc, first),
        }
    }

    /// Takes room for so many more, but for their blocks.
    pub fn reserve(&mut self, places: usize) -> Result<(), NoMemory>
        ensures items { self.new.items ≡ self.old.items }
        ensures first { self.new.first ≡ self.old.first }
        ensures next { self.new.next ≡ self.old.next }
        ensures room { OnOk result (places ≤ self.new.spare) }
    {
        self.blocks.reserve(places)
    }

    /// Takes in the state of a task in its block, under the next number.
    pub fn add(&mut self, block: Vec<T>, state: T)
        requires room { 0 < self.old.spare }
        requires number { self.old.next < 2 ^ 64 }
        requires empty { block.items ≡ [] }
        requires fits { vec_len block < vec_capacity block }
        ensures items { self.new.items ≡ with_task self.old.next state self.old.items }
        ensures first { self.new.first ≡ self.old.first }
        ensures next { self.new.next ≡ self.old.next + 1 }
    {
        let mut block = block;
        block.push_reserved(state);
        self.blocks.add(block);
    }

    /// Returns whether the state of a task is in.
    pub fn has(&self, task: u64) -> bool
        ensures { result ≡ is_some (find task self.now.items) }
    {
        self.blocks.has(task)
    }

    /// Takes the state of a task out, with its block.
    pub fn take(&mut self, task: u64) -> Option<Vec<T>>
        ensures state { IfSome result (λ block. find task self.old.items ≡ slice_get block.items 0) }
        ensures one { IfSome result (λ block. length block.items ≡ 1) }
        ensures place { IfSome result (λ block. (self.old.first ≤ task) × (task < self.old.next)) }
        ensures none { IfNone result (find task self.old.items ≡ None) }
        ensures items { self.new.items ≡ without task self.old.items }
        ensures first { self.new.first ≡ self.old.first }
        ensures next { self.new.next ≡ self.old.next }
    {
        self.blocks.take(task)
    }

    /// Puts the state of a task back into its place.
    pub fn put(&mut self, task: u64, block: Vec<T>)
        requires first { self.old.first ≤ task }
        requires next { task < self.old.next }
        requires out { find task self.old.items ≡ None }
        requires one { length block.items ≡ 1 }
        ensures items { self.new.items ≡ with_top task block.items self.old.items }
        ensures first { self.new.first ≡ self.old.first }
        ensures next { self.new.next ≡ self.old.next }
    {
        self.blocks.put(task, block);
    }

    /// Returns the number of the task that a cleanup ends next: the first, the root last.
    pub fn ends_next(&mut self, root: Option<u64>) -> Option<u64>
        ensures next { result ≡ ends_next (numbers_of self.old.items) root }
        ensures same { self.new ≡ self.old }
    {
        self.blocks.ends_next(root)
    }

    /// Gives the memory back, where no task is in.
    pub fn destroy_empty(self)
        requires { self.items ≡ [] }
    {
        let States { blocks } = self;
        blocks.destroy_empty();
    }
}

impl<T: Task> States<T> {
    /// [`Task::touch`] of the state of a task, if it is in.
    pub fn touch(&self, task: u64, depth: Depth) -> usize {
        match self.blocks.get(task).and_then(|block| block.first()) {
            Some(state) => state.touch(depth),
            None => 0,
        }
    }
}
