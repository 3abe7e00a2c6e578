//! Checksums: CRC-32C, and the checksum of fields by which events and stores are digested.
#![tactic(auto)]

mod audit_hasher;
mod crc32c;
mod crc32c_tables;
mod task_tables;

pub use audit_hasher::AuditHasher;
pub use crc32c::Crc32c;
