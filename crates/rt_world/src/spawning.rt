//! Spawning tasks.

ghost use Rattle.std.specs.Prelude.{ℕ, ◌≡◌, ◌<◌, IfOk, IfErr, OnOk, None, Some, [], true, false, vec_len, vec_capacity};
ghost use Rattle.rt_model.specs.Rules.{MayCall};
ghost use Rattle.rt_model.specs.Turns.{Spawning};
ghost use Rattle.rt_world.specs.Calls.{HandsBack, Kept, Made, IsMadeBy, IsRefused, IsTakenIn, spawned_reply};
ghost use Rattle.rt_world.specs.Walked.{Called, spawn_told};

use crate::World;
use crate::states::{States, block_of};
use crate::tasks::Tasks;
use rand_core::Rng;
use rt_base::{Error, Execution, NoMemory};
use std::alloc::Global;

/// A type whose values make the state of a task. They needn't be `Drop`, so they may hold tokens: where nothing is made of
/// one, it is handed back.
///
/// `callable` says whether one may be used, and `makes` which states it may make, by the number of the task's own node.
pub trait Makes<T>: Sized {
    ghost use Rattle.std.specs.Prelude.{ℕ};

    // whether it may be used
    ghost callable: { Self → Type 0 };

    // the states that it may make
    ghost makes: { Self → ℕ → T → Type 0 };

    /// Makes the state of a task whose own context is on the node of this number.
    fn make(self, node: u64) -> T
        requires { callable self }
        ensures { makes self node result };
}

/// What came of a call that spawns.
#[derive(Debug, Drop)]
pub enum Spawned<M> {
    /// The task of this number runs, and its own context is on this node.
    Runs { task: u64, node: u64 },
    /// The node had ended, and is closed. Nothing was made, and the maker is handed back.
    Closed(M),
}

#[tactic(auto, using(crate::proofs::Walked::call_laws, crate::proofs::Walked::stay_laws, crate::proofs::Calling::seated_laws, crate::proofs::Slotted::slotted_laws))]
impl<T, O, G: Rng> World<T, O, G> {
    /// Spawns a task on a node, which asks to run there, and returns its number and that of the fresh node on which its
    /// own context is. The maker makes its state, by the fresh node's number. Where the node has ended nothing is made,
    /// and the node is closed. That and a refusal hand the maker back. It takes memory.
    ///
    /// Errors: `NoMemory` at any time, or else the first that holds: `UnknownToken` where the node isn't live or has
    /// a task, `TooManyTasks` exactly where the next number is `u64::MAX`.
    pub fn spawn<M: Makes<T>>(
        &mut self,
        node: u64,
        execution: Execution,
        maker: M,
    ) -> Result<Spawned<M>, (Error, M)>
        requires calling { MayCall self.old.told.state self.old.out }
        requires callable { M.callable maker }
        ensures kept { Kept G.stream self.old self.new }
        ensures back { IfErr result (λ back. back.1 ≡ maker) }
        ensures closed { IfOk result (λ spawned. HandsBack spawned maker) }
        ensures ok { (made : ℕ → T) → IsMadeBy (M.makes maker) made → IfOk result (λ spawned. Made self.old self.new (Spawning node execution made) (spawned_reply spawned)) }
        ensures taken_in { IfOk result (λ spawned. IsTakenIn (M.makes maker) self.old self.new node execution spawned) }
        ensures err { (made : ℕ → T) → IfErr result (λ back. IsRefused self.old self.new (Spawning node execution made) back.0) }
        ensures called { (made : ℕ → T) → IsMadeBy (M.makes maker) made → Called (Spawning node execution made) self.old self.new (spawn_told result) }
    {
        let reserved = reserve_places(
            self.machine.allocator(),
            &mut self.tasks,
            &mut self.outputs,
            &mut self.executions,
        );
        let Ok(block) = reserved else {
            self.machine.lack();
            return Err((Error::NoMemory, maker));
        };
        self.machine.facts();
        match self.machine.spawn(self.out, node) {
            Err(error) => {
                block.destroy_empty();
                Err((error, maker))
            }
            Ok(None) => {
                block.destroy_empty();
                Ok(Spawned::Closed(maker))
            }
            Ok(Some((task, number))) => {
                let state = maker.make(number);
                self.tasks.add(block, state);
                self.outputs.skip();
                self.executions.push_reserved((task, execution));
                Ok(Spawned::Runs { task, node: number })
            }
        }
    }
}

/// Takes room for a further task, its output and where it asked to run, and returns the block of its state.
pub(crate) fn reserve_places<T, O>(
    alloc: Global,
    tasks: &mut States<T>,
    outputs: &mut Tasks<O>,
    executions: &mut Vec<(u64, Execution)>,
) -> Result<Vec<T>, NoMemory>
    ensures empty { IfOk result (λ block. block.items ≡ []) }
    ensures fits { IfOk result (λ block. vec_len block < vec_capacity block) }
    ensures tasks { tasks.new.items ≡ tasks.old.items }
    ensures tasks_first { tasks.new.first ≡ tasks.old.first }
    ensures tasks_next { tasks.new.next ≡ tasks.old.next }
    ensures tasks_room { OnOk result (0 < tasks.new.spare) }
    ensures outputs { outputs.new.items ≡ outputs.old.items }
    ensures outputs_first { outputs.new.first ≡ outputs.old.first }
    ensures outputs_next { outputs.new.next ≡ outputs.old.next }
    ensures outputs_room { OnOk result (0 < outputs.new.spare) }
    ensures executions { executions.new.items ≡ executions.old.items }
    ensures executions_room { OnOk result (vec_len executions.new < vec_capacity executions.new) }
{
    tasks.reserve(1)?;
    outputs.reserve(1)?;
    executions.reserve(1)?;
    block_of(alloc)
}
