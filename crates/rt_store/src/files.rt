// The blobs of a store, by number.
ghost use Rattle.std.specs.Prelude.{◌≡◌, ◌+◌, ◌*◌, ◌^◌, ◌<◌, ◌≤◌, List, [], ◌∷◌, ◌++◌, ◌-◌, length, map, take, Option, None, Some, ⊤, IfOk, OnOk, OnErr, slice_get, is_some, true, vec_len, vec_capacity};
ghost use Rattle.std.specs.Option.{option_copied};
ghost use Rattle.rt_base.specs.Counted.{Notes};
ghost use Rattle.rt_base.specs.declared.choice.Choice.{Choice};
ghost use Rattle.rt_store.specs.Changes.{end_of};
ghost use Rattle.rt_store.specs.Crash.{Chooses, ChoosesAll, all_crashed, later_at};
ghost use Rattle.rt_store.specs.Directory.{numbers};
ghost use Rattle.rt_store.specs.Draws.{Answers, if_ok};
ghost use Rattle.rt_store.specs.File.{FileState, fresh_file, mutated, synced, closed, crashed, detached, with_token};
ghost use Rattle.rt_store.specs.Store.{live, at_blob, at_place, all_detached, count_later, end_refusal, refusal_at};

use crate::blob::Blob;
use crate::faults::FaultConfig;
use crate::file::File;
use crate::mutation::Mutation;
use crate::names::Names;
use rt_base::{BlobVersion, Choice, Env, Error, NoMemory};
use std::alloc::Global;
use std::marker::Model;

/// The blobs ever made. A call that may leave fewer changes to a crash returns how many fewer.
#[derive(Drop)]
pub struct Files {
    files: Vec<File>,
}

impl Model for Files {
    ghost use Rattle.std.specs.Prelude.{List};
    ghost use Rattle.rt_store.specs.File.{FileState};

    ghost Value = { List FileState };

    ghost view = { λ f. f.files.items };
}

impl Files {
    /// Makes a list without blobs.
    pub fn new(alloc: Global) -> Files
        ensures { result ≡ [] }
    {
        Files {
            files: Vec::new(alloc),
        }
    }

    /// Returns how many blobs were made.
    pub fn len(&self) -> usize
        ensures value { result ≡ length self.now }
        ensures bound { result < 2 ^ 63 }
    {
        self.files.len()
    }

    /// Returns the blob of a token, if the token is live.
    pub fn at(&self, blob: &Blob) -> Option<&File>
        ensures { option_copied result ≡ live self.now blob.now }
    {
        match self.files.get(blob.place as usize) {
            Some(file) => {
                if file.token() == Some(blob.number) {
                    Some(file)
                } else {
                    None
                }
            }
            None => None,
        }
    }

    /// Returns the blob of a number that is there.
    pub fn get(&self, place: u64) -> &File
        requires { is_some (slice_get self.now place) ≡ true }
        ensures { Some result.now ≡ slice_get self.now place }
    {
        &self.files[place as usize]
    }

    /// Returns the blob of a number, if it is there.
    pub fn find(&self, place: u64) -> Option<&File>
        ensures { option_copied result ≡ slice_get self.now place }
    {
        self.files.get(place as usize)
    }

    /// Gives a blob that is there a live token.
    pub fn set_token(&mut self, place: u64, token: u64)
        requires { is_some (slice_get self.old place) ≡ true }
        ensures set { self.new ≡ at_blob self.old place (with_token token) (slice_get self.old place) }
        ensures later { count_later self.new ≡ count_later self.old }
    {
        self.files[place as usize].set_token(token);
    }

    /// Takes the last blob away.
    pub fn take_back(&mut self)
        ensures { self.new ≡ take (length self.old - 1) self.old }
    {
        let _ = self.files.pop();
    }

    // Whether the token is live.
    fn is_live(&self, blob: &Blob) -> bool
        ensures { result ≡ is_some (live self.now blob.now) }
    {
        self.at(blob).is_some()
    }

    /// Adds a blob without bytes whose live token is this. Where memory is refused nothing changes.
    #[tactic(auto, using(crate::proofs::Counting::count_push))]
    pub fn add(&mut self, version: BlobVersion, token: u64) -> Result<(), NoMemory>
        ensures added { OnOk result (self.new ≡ self.old ++ fresh_file version token ∷ []) }
        ensures later { count_later self.new ≡ count_later self.old }
        ensures refused { OnErr result (self.new ≡ self.old) }
    {
        let alloc = *self.files.allocator();
        self.files.push(File::new(alloc, version, token))?;
        Ok(())
    }

    /// Changes the blob of a token, and returns how many more changes a crash decides over.
    pub fn mutate<E: Env>(
        &mut self,
        env: &mut E,
        blob: &Blob,
        rate: u32,
        mutation: Mutation,
    ) -> Result<usize, Error>
        requires { 0 < rate → 0 < E.spare env.old }
        ensures lasts { (start : E) → E.lasts start env.old → E.lasts start env.new }
        ensures gives { Notes (E.noted env.old) (Answers (refusal_at (live self.old blob.now) (end_refusal (end_of mutation))) rate (λ _. ⊤) result) (E.noted env.new) }
        ensures later { IfOk result (λ n. (n ≤ 1) × (count_later self.new ≡ count_later self.old + n)) }
        ensures after { self.new ≡ if_ok result (at_blob self.old blob.now.place (mutated mutation) (live self.old blob.now)) self.old }
        ensures spent { E.spare env.old ≤ E.spare env.new + 1 }
    {
        if !self.is_live(blob) {
            drop(mutation);
            return Err(Error::UnknownToken);
        }
        if mutation.overflows() {
            drop(mutation);
            return Err(Error::OffsetOverflow);
        }
        let file = &mut self.files[blob.place as usize];
        let more = file.mutate(env, rate, mutation)?;
        Ok(more)
    }

    /// Makes the content of the blob of a token its base.
    pub fn sync(&mut self, blob: &Blob) -> usize
        ensures synced { self.new ≡ at_blob self.old blob.now.place synced (live self.old blob.now) }
        ensures later { count_later self.new + result ≡ count_later self.old }
    {
        if !self.is_live(blob) {
            return 0;
        }
        self.admit(blob.place)
    }

    /// Makes the content of the blob of a number its base, if it is there.
    pub fn admit(&mut self, place: u64) -> usize
        ensures synced { self.new ≡ at_place self.old place synced }
        ensures later { count_later self.new + result ≡ count_later self.old }
    {
        if place as usize >= self.files.len() {
            return 0;
        }
        self.files[place as usize].sync()
    }

    /// Ends a live token.
    pub fn close(&mut self, blob: &Blob)
        ensures later { count_later self.new ≡ count_later self.old }
        ensures closed { self.new ≡ at_blob self.old blob.now.place closed (live self.old blob.now) }
    {
        if !self.is_live(blob) {
            return;
        }
        self.files[blob.place as usize].close();
    }

    /// Marks the blob of a number as removed, if it is there.
    pub fn detach(&mut self, place: u64) -> usize
        ensures detached { self.new ≡ at_place self.old place detached }
        ensures later { count_later self.new + result ≡ count_later self.old }
    {
        if place as usize >= self.files.len() {
            return 0;
        }
        self.files[place as usize].detach()
    }

    /// Closes all blobs.
    pub fn close_all(&mut self)
        ensures { self.new ≡ map closed self.old }
    {
        close_each(self.files.as_mut_slice());
    }

    // What a crash leaves of the blob of a number, where it is there.
    fn crash_at<E: Env>(
        &mut self,
        place: u64,
        env: &mut E,
        faults: &FaultConfig,
        choices: &mut Vec<Choice>,
    ) -> usize
        requires draws { 2 * count_later self.old ≤ E.spare env.old }
        requires places { vec_len choices.old + count_later self.old ≤ vec_capacity choices.old }
        ensures lasts { (start : E) → E.lasts start env.old → E.lasts start env.new }
        ensures gives { (cs : List Choice) × Chooses faults.now (later_at self.old place) cs (E.noted env.old) (E.noted env.new) × (choices.new.items ≡ choices.old.items ++ cs) × (self.new ≡ at_place self.old place (crashed cs)) }
        ensures later { count_later self.new + result ≡ count_later self.old }
        ensures spent { E.spare env.old ≤ E.spare env.new + 2 * result }
        ensures used { vec_len choices.new ≡ vec_len choices.old + result }
        ensures places { vec_capacity choices.new ≡ vec_capacity choices.old }
    {
        if place as usize >= self.files.len() {
            return 0;
        }
        self.files[place as usize].crash(env, faults, choices)
    }

    /// Leaves what a crash leaves of the blobs of these names, in their order. It takes no memory.
    pub fn crash<E: Env>(
        &mut self,
        names: &Names,
        env: &mut E,
        faults: &FaultConfig,
        choices: &mut Vec<Choice>,
    ) -> usize
        requires draws { 2 * count_later self.old ≤ E.spare env.old }
        requires places { vec_len choices.old + count_later self.old ≤ vec_capacity choices.old }
        ensures lasts { (start : E) → E.lasts start env.old → E.lasts start env.new }
        ensures gives { (cs : List Choice) × ChoosesAll faults.now (numbers names.now) self.old cs (E.noted env.old) (E.noted env.new) × (choices.new.items ≡ choices.old.items ++ cs) × (self.new ≡ all_crashed (numbers names.now) cs self.old) }
        ensures later { count_later self.new + result ≡ count_later self.old }
        ensures spent { E.spare env.old ≤ E.spare env.new + 2 * result }
        ensures used { vec_len choices.new ≡ vec_len choices.old + result }
        ensures places { vec_capacity choices.new ≡ vec_capacity choices.old }
    {
        let mut fewer: usize = 0;
        for place in names.numbers() {
            fewer += self.crash_at(*place, env, faults, choices);
        }
        fewer
    }

    /// Marks the blobs of these names as removed.
    pub fn detach_all(&mut self, names: &Names) -> usize
        requires { count_later self.old < 2 ^ 63 }
        ensures detached { self.new ≡ all_detached (numbers names.now) self.old }
        ensures later { count_later self.new + result ≡ count_later self.old }
    {
        let mut fewer: usize = 0;
        for place in names.numbers() {
            fewer += self.detach(*place);
        }
        fewer
    }
}

// Closes these blobs.
fn close_each(files: &mut [File])
    ensures { files.new ≡ map closed files.old }
{
    for file in files.iter_mut() {
        file.close();
    }
}
