// A writer of a store in memory, by what each crash leaves.
ghost use Rattle.std.specs.Prelude.{◌≡◌, ◌+◌, ◌≤◌, ℕ, ⊤, List, Ok, Some};
ghost use Rattle.rt_base.specs.declared.choice.Choice.{Choice};
ghost use Rattle.rt_buffer.specs.Durable.{Asked, HoldsBytes, HoldsSync, IfStepped, Keeping, Keeps, KnowsState, OnOthers};
ghost use Rattle.rt_buffer.specs.Memory.{CrashLeaves, MemoryKeeps};
ghost use Rattle.rt_base.specs.Counted.{Notes};
ghost use Rattle.rt_buffer.specs.Steps.{PollsHandle, Runs, answer_of, seen_step, writer};
ghost use Rattle.rt_buffer.specs.Tip.{laid_over};
ghost use Rattle.rt_buffer.specs.Writing.{LiesOver};
ghost use Rattle.rt_store.specs.Calls.{blob_of};
ghost use Rattle.rt_store.specs.File.{FileState, crashed};
ghost use Rattle.rt_store.specs.Memory.{memory_bytes, memory_left, memory_promised};

use crate::sync_handle::SyncHandle;
use crate::write::Write;
use crate::write_op::{Rest, Step};
use rt_base::{Env, Error, Poll};
use rt_store::{MemStore, Storage};

impl Write<MemStore> {
    /// Does [`sync`](Self::sync) over a store in memory, after which each crash leaves exactly the bytes that the
    /// writer stands for.
    pub fn sync_in_memory<E: Env>(
        self,
        store: &mut MemStore,
        env: &mut E,
        task: u64,
    ) -> Step<MemStore>
        ensures lasts { (start : E) → E.lasts start env.old → E.lasts start env.new }
        ensures memory { MemoryKeeps }
        ensures durable { LiesOver self.held.tip (memory_bytes store.old self.blob) → KnowsState memory_bytes memory_left memory_promised self.held.state store.old self.blob →
            IfStepped result (λ w. Keeps memory_bytes memory_left memory_promised (laid_over self.held.tip (memory_bytes store.old self.blob)) Rest.Sync w.held store.new self.blob
            × ((blob : FileState) (choices : List Choice) → blob_of store.new self.blob ≡ Some blob → (crashed choices blob).content ≡ laid_over self.held.tip (memory_bytes store.old self.blob)))
            (λ p. Keeping memory_bytes memory_left memory_promised (laid_over self.held.tip (memory_bytes store.old self.blob)) p.rest p.write.held store.new self.blob) }
        ensures crash { LiesOver self.held.tip (memory_bytes store.old self.blob) → KnowsState memory_bytes memory_left memory_promised self.held.state store.old self.blob →
            IfStepped result (λ w. CrashLeaves (laid_over self.held.tip (memory_bytes store.old self.blob)) store.new self.blob) (λ p. ⊤) }
        ensures runs { Notes (E.noted env.old) (λ x. Runs ⟦<MemStore as Storage>⟧ self.blob Rest.Sync task (writer store.old self.held) store.new (seen_step (λ w. (w.blob, w.held)) (λ p. ((p.write.blob, p.write.held), p.rest)) result) x) (E.noted env.new) }
        ensures others { OnOthers ⟦<MemStore as Storage>⟧ self.held.state self.blob store.old store.new (λ know. IfStepped result (λ w. know w.held.state) (λ p. know p.write.held.state)) }
        ensures spent { E.spare env.old ≤ E.spare env.new + 4 }
    {
        self.sync(store, env, task)
    }
}

impl SyncHandle {
    /// Does [`poll`](Self::poll) over a store in memory: once the sync that the writer holds returned Ok, each crash
    /// leaves exactly the bytes that the writer stood for when it began, where nothing was changed since.
    pub fn poll_in_memory<E: Env>(
        &mut self,
        write: &mut Write<MemStore>,
        store: &mut MemStore,
        env: &mut E,
        task: u64,
    ) -> Poll<Result<(), Error>>
        ensures lasts { (start : E) → E.lasts start env.old → E.lasts start env.new }
        ensures memory { MemoryKeeps }
        ensures durable { write.old.held.syncs ≡ self.old.number → HoldsSync memory_bytes memory_left memory_promised write.old.held store.old write.old.blob →
            (memory_bytes store.new write.old.blob ≡ memory_bytes store.old write.old.blob) × Asked memory_bytes memory_left memory_promised (answer_of result) write.new.held store.new write.old.blob }
        ensures crash { (content : List ℕ) → write.old.held.syncs ≡ self.old.number → HoldsBytes memory_bytes memory_left memory_promised content write.old.held store.old write.old.blob →
            result ≡ Poll.Ready (Ok tt) → CrashLeaves content store.new write.old.blob }
        ensures blob { write.new.blob ≡ write.old.blob }
        ensures same { self.new ≡ self.old }
        ensures polls { Notes (E.noted env.old) (λ x. PollsHandle ⟦<MemStore as Storage>⟧ self.old.number task (writer store.old write.old.held) (answer_of result) (writer store.new write.new.held) x) (E.noted env.new) }
        ensures others { OnOthers ⟦<MemStore as Storage>⟧ write.old.held.state write.old.blob store.old store.new (λ know. know write.new.held.state) }
        ensures spent { E.spare env.old ≤ E.spare env.new + 1 }
    {
        self.poll(write, store, env, task)
    }
}
