// The digest of all blobs that have a name.
ghost use Rattle.std.specs.Prelude.{slice_get};
ghost use Rattle.rt_store.specs.Audit.{TakesFields, blob_fields, names_fields, partitions_fields, shelf_fields};

use crate::directory::Directory;
use crate::files::Files;
use crate::names::Names;
use rt_hasher::AuditHasher;

/// Takes the fields of all blobs in, in the order of partitions and names.
pub fn audit_all(directory: &Directory, files: &Files, hasher: &mut AuditHasher)
    ensures { TakesFields (partitions_fields files.now directory.now.shelves directory.now.shelf) hasher.old hasher.new }
{
    for (partition, shelf) in directory.partitions() {
        if let Some(names) = directory.shelf(*shelf) {
            audit_names(files, partition.as_slice(), names, hasher);
        }
    }
}

// Takes in the fields of the blobs of one partition.
fn audit_names(files: &Files, partition: &[u8], names: &Names, hasher: &mut AuditHasher)
    ensures { TakesFields (names_fields files.now partition.now names.now) hasher.old hasher.new }
{
    for (name, place) in names.entries() {
        audit_blob(files, partition, name.as_slice(), *place, hasher);
    }
}

// Takes in the fields of one blob, if it is there.
fn audit_blob(files: &Files, partition: &[u8], name: &[u8], place: u64, hasher: &mut AuditHasher)
    ensures { TakesFields (blob_fields partition.now name.now (slice_get files.now place)) hasher.old hasher.new }
{
    if let Some(file) = files.find(place) {
        hasher.update(partition);
        hasher.update(name);
        hasher.update(&file.version().get().to_be_bytes());
        hasher.update(file.content());
    }
}
