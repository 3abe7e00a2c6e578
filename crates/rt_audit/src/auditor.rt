//! The digest of events, as a chain: each event's digest takes the one before it in.

ghost use Rattle.std.specs.Prelude.{◌≡◌, ◌∷◌, ◌++◌, [], ℕ, List, IfOk, IfSome, IsTrue, string_bytes};
ghost use Rattle.hex.specs.Hex.{encode_lower};
ghost use Rattle.rt_hasher.specs.Crc32c.{register_of};
ghost use Rattle.rt_hasher.specs.Framing.{framed};
ghost use Rattle.rt_hasher.specs.Digest.{first_digest, event_digest, fields_digest};
ghost use Rattle.rt_hasher.specs.TaskEvent.{task_event, small_number};

use crate::event_fields::{EventFields, FieldsKind};
use rt_base::{Event, Items, NoMemory};
use rt_hasher::AuditHasher;
use std::alloc::Global;
use std::marker::Model;

/// The digest of the events so far, four bytes: that of each event takes in the digest before it, the label and the
/// fields. Contracts see these bytes.
#[derive(Clone, Copy, Debug, PartialEq, Eq)]
pub struct Auditor {
    digest: [u8; 4],
}

impl Model for Auditor {
    ghost use Rattle.std.specs.Prelude.{ℕ, List};

    ghost Value = { List ℕ };

    ghost view = { λ a. a.digest };

    ghost inverse = { λ digest. record { digest = digest } };
}

impl Auditor {
    /// Makes the digest of no events: four bytes of zeros.
    pub fn new() -> Self
        ensures { result ≡ first_digest }
    {
        Auditor { digest: [0; 4] }
    }

    /// Takes an event in: the digest becomes that of the digest before, the label and the event's fields, in this
    /// order.
    pub fn event(&mut self, event: &Event)
        ensures { self.new ≡ event_digest self.old event.now.label event.now.fields }
    {
        self.chain_listed(event.label.as_str(), event.fields.as_slice());
    }

    /// Takes an event of this label and these fields in. Not inlined, so that other entries are noted in place.
    #[inline(never)]
    pub(crate) fn chain(&mut self, label: &str, fields: &EventFields)
        ensures { self.new ≡ event_digest self.old label.now fields.now }
    {
        match fields.kind() {
            FieldsKind::OfTask {
                number,
                label: told,
            } => {
                let mut hasher = self.begun(label, number.as_slice());
                hasher.update(told.as_str().as_bytes());
                self.digest = hasher.finalize();
            }
            FieldsKind::OfTaskInPlace {
                number,
                label: told,
            } => {
                let mut hasher = self.begun(label, number.as_slice());
                hasher.update(told.as_bytes());
                self.digest = hasher.finalize();
            }
            FieldsKind::Listed(fields) => self.chain_listed(label, fields.as_slice()),
        }
    }

    /// Takes an event of this label and these fields in.
    fn chain_listed(&mut self, label: &str, fields: &[Items<u8>])
        ensures { self.new ≡ event_digest self.old label.now fields.now }
    {
        if let Some((first, rest)) = fields.split_first() {
            self.digest = digest_with(self.begun(label, first.as_slice()), rest);
            return;
        }
        self.digest = self.labelled(label).finalize();
    }

    /// The checksum up to the first field of an event.
    #[inline(always)]
    fn begun(&self, label: &str, first: &[u8]) -> AuditHasher
        ensures { result ≡ register_of (framed (self.now ∷ label.now ∷ first.now ∷ [])) }
    {
        if is_task_event(label) {
            if let Some(low) = low_bytes(first) {
                return AuditHasher::of_task(self.digest, low);
            }
        }
        let mut hasher = self.labelled(label);
        hasher.update(first);
        hasher
    }

    /// Returns the checksum up to the label of an event.
    fn labelled(&self, label: &str) -> AuditHasher
        ensures { result ≡ register_of (framed (self.now ∷ label.now ∷ [])) }
    {
        let mut hasher = AuditHasher::new();
        hasher.update(&self.digest);
        hasher.update(label.as_bytes());
        hasher
    }

    /// Returns the four bytes of the digest.
    pub fn digest(&self) -> [u8; 4]
        ensures { result ≡ self.now }
    {
        self.digest
    }

    /// Returns the digest as eight lower-case hex digits.
    pub fn state(&self, alloc: Global) -> Result<String, NoMemory>
        ensures { IfOk result (λ text. string_bytes text ≡ encode_lower self.now) }
    {
        Ok(hex::encode(alloc, &self.digest)?)
    }
}

impl Default for Auditor {
    ghost use Rattle.std.specs.Prelude.{◌≡◌};
    ghost use Rattle.rt_hasher.specs.Digest.{first_digest};

    ghost is_default = { λ a. a ≡ first_digest };

    fn default() -> Auditor {
        Auditor::new()
    }
}

/// Whether this is the name of the event of a task's visit.
#[inline(always)]
fn is_task_event(label: &str) -> bool
    ensures { IsTrue result → label.now ≡ task_event }
{
    label == "process_task"
}

/// The low eight bytes of a number of sixteen, where the others are zeros.
#[inline(always)]
pub(crate) fn low_bytes(number: &[u8]) -> Option<[u8; 8]>
    ensures { IfSome result (λ low. number.now ≡ small_number low) }
{
    let (high, rest) = number.split_first_chunk::<8>()?;
    let (low, rest) = rest.split_first_chunk::<8>()?;
    if rest.is_empty() && u64::from_le_bytes(*high) == 0 {
        Some(*low)
    } else {
        None
    }
}

/// The digest of the fields of a hasher and these.
#[inline(always)]
fn digest_with(hasher: AuditHasher, fields: &[Items<u8>]) -> [u8; 4]
    ensures { (before : List (List ℕ)) → hasher ≡ register_of (framed before) → result ≡ fields_digest (before ++ fields.now) }
{
    let mut hasher = hasher;
    for field in fields {
        hasher.update(field.as_slice());
    }
    hasher.finalize()
}
