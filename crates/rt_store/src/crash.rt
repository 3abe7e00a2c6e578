// What a crash leaves of a blob.
ghost use Rattle.std.specs.Prelude.{◌≡◌, ◌+◌, ◌*◌, ◌^◌, ◌<◌, ◌≤◌, ◌++◌, List, length, All, vec_len, vec_capacity};
ghost use Rattle.rt_base.specs.declared.choice.Choice.{Choice};
ghost use Rattle.rt_base.specs.Counted.{Notes};
ghost use Rattle.rt_store.specs.Changes.{all_undone, mutations, end_of, HasRoom};
ghost use Rattle.rt_store.specs.Crash.{Chosen, Chooses, WriteChosen, ResizeChosen};
ghost use Rattle.rt_store.specs.File.{replay, replayed};

use crate::change::Change;
use crate::content::{apply, put, undo};
use crate::draws::MILLION;
use crate::faults::{FaultConfig, PartialWriteMode, WriteConfig};
use crate::mutation::Mutation;
use rt_base::{Choice, Env};

/// Undoes the changes, the last one first.
#[tactic(auto, using(crate::proofs::Undone::undone_snoc))]
pub fn restore(content: &mut Vec<u8>, later: &[Change])
    requires { All (HasRoom (vec_capacity content.old)) later.now }
    ensures bytes { content.new.items ≡ all_undone later.now content.old.items }
    ensures room { vec_capacity content.old ≤ vec_capacity content.new }
{
    let mut rest = later;
    while let Some((last, before)) = rest.split_last() {
        undo(content, &last.before);
        rest = before;
    }
}

/// Does the changes again that are kept, and adds the choices.
pub fn redo<E: Env>(
    content: &mut Vec<u8>,
    env: &mut E,
    faults: &FaultConfig,
    later: &[Change],
    choices: &mut Vec<Choice>,
)
    requires room { All (HasRoom (vec_capacity content.old)) later.now }
    requires draws { 2 * length later.now ≤ E.spare env.old }
    requires places { vec_len choices.old + length later.now ≤ vec_capacity choices.old }
    ensures lasts { (start : E) → E.lasts start env.old → E.lasts start env.new }
    ensures gives { (cs : List Choice) × Chooses faults.now (mutations later.now) cs (E.noted env.old) (E.noted env.new) × (choices.new.items ≡ choices.old.items ++ cs) × (content.new.items ≡ replay (mutations later.now) cs content.old.items) }
    ensures spent { E.spare env.old ≤ E.spare env.new + 2 * length later.now }
    ensures used { vec_len choices.new ≡ vec_len choices.old + length later.now }
    ensures places { vec_capacity choices.new ≡ vec_capacity choices.old }
{
    let mut rest = later;
    while let Some((change, tail)) = rest.split_first() {
        let choice = choose(env, faults, &change.mutation);
        replay_one(content, choice, &change.mutation);
        choices.push_reserved(choice);
        rest = tail;
    }
}

// Does a change again, as far as it is kept.
fn replay_one(content: &mut Vec<u8>, choice: Choice, mutation: &Mutation)
    requires { end_of mutation.now ≤ vec_capacity content.old }
    ensures bytes { content.new.items ≡ replayed choice mutation.now content.old.items }
    ensures room { vec_capacity content.old ≤ vec_capacity content.new }
{
    match choice {
        Choice::Kept => apply(content, mutation),
        Choice::Dropped => {}
        Choice::Prefix(len) => match mutation {
            Mutation::Write {
                at,
                bytes,
                durable: _,
            } => {
                let len = bytes.len().min(len as usize);
                put(content, *at, &bytes.as_slice()[..len]);
            }
            Mutation::Resize { len: _ } => {}
        },
    }
}

// What becomes of a change.
fn choose<E: Env>(env: &mut E, faults: &FaultConfig, mutation: &Mutation) -> Choice
    requires { 2 ≤ E.spare env.old }
    ensures lasts { (start : E) → E.lasts start env.old → E.lasts start env.new }
    ensures gives { Notes (E.noted env.old) (Chosen faults.now mutation.now result) (E.noted env.new) }
    ensures spent { E.spare env.old ≤ E.spare env.new + 2 }
{
    match mutation {
        Mutation::Write {
            at: _,
            bytes,
            durable,
        } => {
            if *durable {
                return Choice::Kept;
            }
            choose_write(env, &faults.write, bytes.len())
        }
        Mutation::Resize { len: _ } => choose_whole(env, faults.resize.keep),
    }
}

// Kept or dropped, by a number where it may be kept.
fn choose_whole<E: Env>(env: &mut E, keep: u32) -> Choice
    requires { 1 ≤ E.spare env.old }
    ensures lasts { (start : E) → E.lasts start env.old → E.lasts start env.new }
    ensures gives { Notes (E.noted env.old) (ResizeChosen keep result) (E.noted env.new) }
    ensures spent { E.spare env.old ≤ E.spare env.new + 1 }
{
    if keep == 0 {
        return Choice::Dropped;
    }
    if env.draw() % MILLION < keep as u64 {
        Choice::Kept
    } else {
        Choice::Dropped
    }
}

// Kept, dropped or cut.
#[tactic(auto, using(crate::proofs::Drawn::cuts))]
fn choose_write<E: Env>(env: &mut E, config: &WriteConfig, len: usize) -> Choice
    requires room { 2 ≤ E.spare env.old }
    requires fits { len < 2 ^ 63 }
    ensures lasts { (start : E) → E.lasts start env.old → E.lasts start env.new }
    ensures gives { Notes (E.noted env.old) (WriteChosen config.now.keep config.now.partial len result) (E.noted env.new) }
    ensures spent { E.spare env.old ≤ E.spare env.new + 2 }
{
    match config.partial {
        PartialWriteMode::Off => choose_whole(env, config.keep),
        PartialWriteMode::Prefix => {
            if env.draw() % MILLION < config.keep as u64 {
                return Choice::Kept;
            }
            Choice::Prefix(env.draw() % (len as u64 + 1))
        }
    }
}
