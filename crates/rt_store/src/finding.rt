// Why names aren't found.
ghost use Rattle.std.specs.Prelude.{◌≡◌, ◌+◌, ◌<◌, ◌≤◌, ⊤};
ghost use Rattle.std.specs.Option.{option_copied};
ghost use Rattle.rt_base.specs.Counted.{Notes};
ghost use Rattle.rt_store.specs.Calls.{name_refusal};
ghost use Rattle.rt_store.specs.Draws.{Answers};

use crate::directory::Directory;
use crate::opening::{is_partition_name, text_of, texts_of};
use crate::store::draw;
use rt_base::{Env, Error};
use std::alloc::Global;

/// Finds a partition, and in it a name where one is given. Draws where both are there and the rate is above 0.
pub fn find<E: Env>(
    alloc: Global,
    env: &mut E,
    rate: u32,
    directory: &Directory,
    partition: &str,
    name: Option<&[u8]>,
) -> Result<(), Error>
    requires { 0 < rate → 0 < E.spare env.old }
    ensures lasts { (start : E) → E.lasts start env.old → E.lasts start env.new }
    ensures gives { Notes (E.noted env.old) (Answers (name_refusal directory.now partition.now (option_copied name.entry)) rate (λ _. ⊤) result) (E.noted env.new) }
    ensures spent { E.spare env.old ≤ E.spare env.new + 1 }
{
    if !is_partition_name(partition.as_bytes()) {
        return Err(Error::PartitionNameInvalid(text_of(alloc, partition)?));
    }
    let Some(names) = directory.names_in(partition.as_bytes()) else {
        return Err(Error::PartitionMissing(text_of(alloc, partition)?));
    };
    if let Some(name) = name {
        if names.get(name).is_none() {
            let (partition, name) = texts_of(alloc, partition, name)?;
            return Err(Error::BlobMissing(partition, name));
        }
    }
    draw(env, rate)
}
