// A blob of the store in memory.
//
// There is one block of bytes, of which the content is the first ones. Each change that a crash may undo is kept with
// the bytes that it wrote over, so the base is the content with these changes undone: a sync forgets them and copies
// nothing, and a crash undoes them and does those again that it keeps, in the room that they had. Bytes that a change
// of length cuts stay in the block after the content until a sync or a crash, so that it copies none; what is written
// there before that is kept as any other change. So a blob that is cut and grown again and again between two syncs holds
// what was cut each time, and its memory grows by the sum of that.
ghost use Rattle.std.specs.Prelude.{◌≡◌, ◌+◌, ◌*◌, ◌^◌, ◌<◌, ◌≤◌, ◌++◌, [], List, length, None, true, false, ⊤, IfOk, OnOk, vec_len, vec_capacity};
ghost use Rattle.rt_base.specs.Counted.{Notes};
ghost use Rattle.rt_base.specs.declared.choice.Choice.{Choice};
ghost use Rattle.rt_store.specs.Changes.{end_of, laid, len_before, undone};
ghost use Rattle.rt_store.specs.Crash.{Chooses};
ghost use Rattle.rt_store.specs.Draws.{Answers, if_ok};
ghost use Rattle.rt_store.specs.File.{FileState, fresh_file, mutated, synced, crashed, detached, closed, with_token, is_settled};

use crate::change::{Before, Change};
use crate::content::{before_of, lay};
use crate::crash::{redo, restore};
use crate::draws::passes;
use crate::faults::FaultConfig;
use crate::mutation::Mutation;
use rt_base::{BlobVersion, Choice, Env, Error, IoKind};
use std::alloc::Global;
use std::marker::Model;

/// The most bytes that a blob of this store can hold, so that no write of a few bytes asks for more than a machine
/// has.
const MOST_BYTES: usize = 4_294_967_296;

/// The bytes of a blob, and its changes since its base.
#[derive(Drop)]
pub struct File {
    version: BlobVersion,
    token: Option<u64>,
    removed: bool,
    held: Vec<u8>,
    len: usize,
    later: Vec<Change>,
}

impl Model for File {
    ghost use Rattle.std.specs.Prelude.{◌≡◌, ◌≤◌, true, [], All, length, take, vec_capacity};
    ghost use Rattle.rt_store.specs.Changes.{all_undone, len_before, mutations, HasRoom};
    ghost use Rattle.rt_store.specs.File.{FileState};

    ghost Value = { FileState };

    ghost view = { λ f. record { version = f.version; token = f.token; removed = f.removed; content = take f.len f.held.items; base = take (len_before f.later.items f.len) (all_undone f.later.items f.held.items); later = mutations f.later.items } };

    ghost invariant = { λ f. (f.len ≤ length f.held.items) × All (HasRoom (vec_capacity f.held)) f.later.items × (f.removed ≡ true → f.later.items ≡ []) };
}

impl File {
    /// Makes a blob without bytes that a token has.
    pub fn new(alloc: Global, version: BlobVersion, token: u64) -> File
        ensures { result ≡ fresh_file version token }
    {
        File {
            version,
            token: Some(token),
            removed: false,
            held: Vec::new(alloc),
            len: 0,
            later: Vec::new(alloc),
        }
    }

    /// Returns the version of the blob's content.
    pub fn version(&self) -> BlobVersion
        ensures { result ≡ self.now.version }
    {
        self.version
    }

    /// Returns the number of the blob's live token, if any.
    pub fn token(&self) -> Option<u64>
        ensures { result ≡ self.now.token }
    {
        self.token
    }

    /// Returns all bytes of the blob.
    pub fn content(&self) -> &[u8]
        ensures { result.now ≡ self.now.content }
    {
        &self.held[..self.len]
    }

    /// Returns how many changes a crash decides over.
    pub fn later(&self) -> usize
        ensures { result ≡ length self.now.later }
    {
        self.later.len()
    }

    /// Changes the bytes, except where a fault is drawn. It returns how many more changes a crash decides over.
    pub fn mutate<E: Env>(
        &mut self,
        env: &mut E,
        rate: u32,
        mutation: Mutation,
    ) -> Result<usize, Error>
        requires { 0 < rate → 0 < E.spare env.old }
        ensures lasts { (start : E) → E.lasts start env.old → E.lasts start env.new }
        ensures gives { Notes (E.noted env.old) (Answers None rate (λ _. ⊤) result) (E.noted env.new) }
        ensures later { IfOk result (λ n. (n ≤ 1) × (length self.new.later ≡ length self.old.later + n)) }
        ensures after { self.new ≡ if_ok result (mutated mutation self.old) self.old }
        ensures spent { E.spare env.old ≤ E.spare env.new + 1 }
    {
        if mutation.end() > MOST_BYTES {
            drop(mutation);
            return Err(Error::NoMemory);
        }
        if self.is_settled(&mutation) {
            let done = self.settle(env, rate, &mutation);
            drop(mutation);
            return done;
        }
        self.leave_open(env, rate, mutation)
    }

    // Does a change that no crash decides over.
    #[tactic(auto, using(crate::proofs::Undone::none_left))]
    fn settle<E: Env>(
        &mut self,
        env: &mut E,
        rate: u32,
        mutation: &Mutation,
    ) -> Result<usize, Error>
        requires draw { 0 < rate → 0 < E.spare env.old }
        requires fits { end_of mutation.now < 2 ^ 63 }
        requires settled { is_settled mutation.now self.old ≡ true }
        ensures lasts { (start : E) → E.lasts start env.old → E.lasts start env.new }
        ensures gives { Notes (E.noted env.old) (Answers None rate (λ _. ⊤) result) (E.noted env.new) }
        ensures none { IfOk result (λ n. n ≡ 0) }
        ensures after { self.new ≡ if_ok result (mutated mutation.now self.old) self.old }
        ensures spent { E.spare env.old ≤ E.spare env.new + 1 }
    {
        self.held
            .reserve(mutation.end().saturating_sub(self.held.len()))?;
        if !passes(env, rate) {
            return Err(Error::Io(IoKind::InjectedStorageFault));
        }
        self.len = lay(&mut self.held, self.len, mutation);
        Ok(0)
    }

    // Does a change that a crash decides over.
    #[tactic(auto, using(crate::proofs::Undone::undone_snoc, crate::proofs::Undone::len_before_snoc, crate::proofs::Undone::mutations_snoc))]
    fn leave_open<E: Env>(
        &mut self,
        env: &mut E,
        rate: u32,
        mutation: Mutation,
    ) -> Result<usize, Error>
        requires draw { 0 < rate → 0 < E.spare env.old }
        requires fits { end_of mutation < 2 ^ 63 }
        requires opened { is_settled mutation self.old ≡ false }
        ensures lasts { (start : E) → E.lasts start env.old → E.lasts start env.new }
        ensures gives { Notes (E.noted env.old) (Answers None rate (λ _. ⊤) result) (E.noted env.new) }
        ensures one { IfOk result (λ n. n ≡ 1) }
        ensures after { self.new ≡ if_ok result (mutated mutation self.old) self.old }
        ensures spent { E.spare env.old ≤ E.spare env.new + 1 }
    {
        match begin(
            &mut self.held,
            self.len,
            &mut self.later,
            env,
            rate,
            &mutation,
        ) {
            Ok(before) => {
                self.len = lay(&mut self.held, self.len, &mutation);
                self.later.push_reserved(Change { mutation, before });
                Ok(1)
            }
            Err(error) => {
                drop(mutation);
                Err(error)
            }
        }
    }

    // Whether no crash decides over this change.
    fn is_settled(&self, mutation: &Mutation) -> bool
        ensures { result ≡ is_settled mutation.now self.now }
    {
        self.removed || (mutation.is_durable() && self.later.is_empty())
    }

    /// Makes the content the base, and returns how many changes a crash no longer decides over. It copies nothing.
    pub fn sync(&mut self) -> usize
        ensures synced { self.new ≡ synced self.old }
        ensures later { result ≡ length self.old.later }
    {
        let fewer = self.later.len();
        self.later.clear();
        self.held.truncate(self.len);
        fewer
    }

    /// Leaves what a crash leaves: the base, and on it the later changes as far as they are kept. It takes no memory,
    /// and returns how many changes it decided over.
    pub fn crash<E: Env>(
        &mut self,
        env: &mut E,
        faults: &FaultConfig,
        choices: &mut Vec<Choice>,
    ) -> usize
        requires draws { 2 * length self.old.later ≤ E.spare env.old }
        requires places { vec_len choices.old + length self.old.later ≤ vec_capacity choices.old }
        ensures lasts { (start : E) → E.lasts start env.old → E.lasts start env.new }
        ensures gives { (cs : List Choice) × Chooses faults.now self.old.later cs (E.noted env.old) (E.noted env.new) × (choices.new.items ≡ choices.old.items ++ cs) × (self.new ≡ crashed cs self.old) }
        ensures spent { E.spare env.old ≤ E.spare env.new + 2 * length self.old.later }
        ensures used { vec_len choices.new ≡ vec_len choices.old + length self.old.later }
        ensures later { result ≡ length self.old.later }
        ensures places { vec_capacity choices.new ≡ vec_capacity choices.old }
    {
        let len = len_before(self.later.as_slice(), self.len);
        restore(&mut self.held, self.later.as_slice());
        self.held.truncate(len);
        redo(&mut self.held, env, faults, self.later.as_slice(), choices);
        self.len = self.held.len();
        let decided = self.later.len();
        self.later.clear();
        decided
    }

    /// Marks the blob as removed: no crash decides over its changes any more, and without a live token its bytes are
    /// dropped. It copies nothing, and returns how many changes those were.
    pub fn detach(&mut self) -> usize
        ensures detached { self.new ≡ detached self.old }
        ensures later { result ≡ length self.old.later }
    {
        let fewer = self.later.len();
        self.later.clear();
        self.removed = true;
        if self.token.is_none() {
            self.let_go();
        }
        fewer
    }

    /// Gives the blob a live token.
    pub fn set_token(&mut self, token: u64)
        ensures { self.new ≡ with_token token self.old }
    {
        self.token = Some(token);
    }

    /// Ends the live token; the bytes of a removed blob are dropped with it.
    pub fn close(&mut self)
        ensures { self.new ≡ closed self.old }
    {
        self.token = None;
        if self.removed {
            self.let_go();
        }
    }

    // Gives the bytes of a removed blob back to memory.
    fn let_go(&mut self)
        requires { self.old.removed ≡ true }
        ensures { self.new ≡ record self.old { content = []; base = []; later = [] } }
    {
        let alloc = *self.held.allocator();
        self.later.clear();
        self.held = Vec::new(alloc);
        self.len = 0;
    }
}

// How many bytes a blob had before these changes, if it has so many now.
fn len_before(later: &[Change], len: usize) -> usize
    ensures { result ≡ len_before later.now len }
{
    match later.first() {
        Some(change) => change.before.len,
        None => len,
    }
}

// Takes the room for a change that a crash decides over, and returns what undoes it, save where a fault is drawn.
fn begin<E: Env>(
    held: &mut Vec<u8>,
    len: usize,
    later: &mut Vec<Change>,
    env: &mut E,
    rate: u32,
    mutation: &Mutation,
) -> Result<Before, Error>
    requires draw { 0 < rate → 0 < E.spare env.old }
    requires fits { end_of mutation.now < 2 ^ 63 }
    requires within { len ≤ length held.old.items }
    ensures lasts { (start : E) → E.lasts start env.old → E.lasts start env.new }
    ensures gives { Notes (E.noted env.old) (Answers None rate (λ _. ⊤) result) (E.noted env.new) }
    ensures undoes { IfOk result (λ b. undone b (laid mutation.now len held.old.items) ≡ held.old.items) }
    ensures len { IfOk result (λ b. b.len ≡ len) }
    ensures ends { IfOk result (λ b. b.at + length b.saved.items ≤ length held.old.items) }
    ensures held { held.new.items ≡ held.old.items }
    ensures kept { vec_capacity held.old ≤ vec_capacity held.new }
    ensures room { OnOk result (end_of mutation.now ≤ vec_capacity held.new) }
    ensures later { later.new.items ≡ later.old.items }
    ensures place { OnOk result (vec_len later.new + 1 ≤ vec_capacity later.new) }
    ensures spent { E.spare env.old ≤ E.spare env.new + 1 }
{
    held.reserve(mutation.end().saturating_sub(held.len()))?;
    later.reserve(1)?;
    let before = before_of(*held.allocator(), held.as_slice(), len, mutation)?;
    if !passes(env, rate) {
        drop(before);
        return Err(Error::Io(IoKind::InjectedStorageFault));
    }
    Ok(before)
}
