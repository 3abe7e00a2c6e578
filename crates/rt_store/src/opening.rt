// Why a blob can't be opened.
ghost use Rattle.std.specs.Prelude.{◌≡◌, ◌+◌, ◌<◌, ◌≤◌, Some, length, IfOk};
ghost use Rattle.std.specs.List.{list_all};
ghost use Rattle.hex.specs.Hex.{encode_lower};
ghost use Rattle.rt_base.specs.Counted.{Notes};
ghost use Rattle.rt_store.specs.Calls.{is_name_byte, is_partition_name, open_refusal_of};
ghost use Rattle.rt_store.specs.Draws.{Answers};

use crate::file::File;
use crate::store::draw;
use rt_base::{BlobVersion, Env, Error, NoMemory, Text};
use std::alloc::Global;

/// Returns whether the name is letters, digits, dashes and underscores, and not empty.
pub fn is_partition_name(name: &[u8]) -> bool
    ensures { result ≡ is_partition_name name.now }
{
    !name.is_empty() && are_name_bytes(name)
}

fn are_name_bytes(name: &[u8]) -> bool
    ensures { result ≡ list_all is_name_byte name.now }
{
    name.iter()
        .all(|b| b.is_ascii_alphanumeric() || *b == b'-' || *b == b'_')
}

/// Returns the length in bytes and the version of the blob that is there, which is found by these names.
pub fn reopen<E: Env>(
    alloc: Global,
    env: &mut E,
    rate: u32,
    file: &File,
    partition: &str,
    name: &[u8],
    versions: (BlobVersion, BlobVersion),
) -> Result<(u64, BlobVersion), Error>
    requires { 0 < rate → 0 < E.spare env.old }
    ensures lasts { (start : E) → E.lasts start env.old → E.lasts start env.new }
    ensures gives { Notes (E.noted env.old) (Answers (open_refusal_of partition.now name.now versions (Some file.now)) rate (λ a. (a.0 ≡ length file.now.content) × (a.1 ≡ file.now.version)) result) (E.noted env.new) }
    ensures spent { E.spare env.old ≤ E.spare env.new + 1 }
{
    if file.token().is_some() {
        let (partition, name) = texts_of(alloc, partition, name)?;
        return Err(Error::BlobAlreadyOpen(partition, name));
    }
    let found = file.version();
    let (least, greatest) = versions;
    if found.get() < least.get() || greatest.get() < found.get() {
        return Err(Error::BlobVersionMismatch {
            expected: versions,
            found,
        });
    }
    draw(env, rate)?;
    Ok((file.content().len() as u64, found))
}

/// Returns a copy of the text.
pub fn text_of(alloc: Global, text: &str) -> Result<Text, NoMemory>
    ensures { IfOk result (λ t. t ≡ text.now) }
{
    Ok(Text::of(String::from_str(alloc, text)?))
}

/// Returns the texts that name a blob in a refusal: its partition, and its name in hex.
pub fn texts_of(alloc: Global, partition: &str, name: &[u8]) -> Result<(Text, Text), NoMemory>
    ensures { IfOk result (λ texts. (texts.0 ≡ partition.now) × (texts.1 ≡ encode_lower name.now)) }
{
    let partition = text_of(alloc, partition)?;
    match hex_of(alloc, name) {
        Ok(name) => Ok((partition, name)),
        Err(NoMemory) => {
            drop(partition);
            Err(NoMemory)
        }
    }
}

// The bytes in lower-case hex.
fn hex_of(alloc: Global, bytes: &[u8]) -> Result<Text, NoMemory>
    ensures { IfOk result (λ t. t ≡ encode_lower bytes.now) }
{
    Ok(Text::of(hex::encode(alloc, bytes)?))
}
