//! The checksum of fields, each with its length before it.

ghost use Rattle.std.specs.Prelude.{◌≡◌, ◌∷◌, ◌++◌, [], ℕ, List, bit_xor};
ghost use Rattle.std.specs.Int.{w32, w64, to_be_bytes};
ghost use Rattle.rt_hasher.specs.Crc32c.{all_ones, byte_steps, register_of};
ghost use Rattle.rt_hasher.specs.Framing.{framed_field, framed, IsFramedOneWay};
ghost use Rattle.rt_hasher.specs.Digest.{fields_digest};
ghost use Rattle.rt_hasher.specs.TaskEvent.{task_event, small_number};

use crate::Crc32c;
use rt_bufs::IoBufs;
use std::marker::Model;

/// A checksum that is fed fields. Since each field's length goes in before its bytes, `ab` and `c` aren't taken for `a`
/// and `bc`. Contracts see the checksum's register.
#[derive(Debug, Drop)]
pub struct AuditHasher {
    checksum: Crc32c,
}

impl Model for AuditHasher {
    ghost use Rattle.std.specs.Prelude.{ℕ};

    ghost Value = { ℕ };

    ghost view = { λ h. h.checksum };
}

impl AuditHasher {
    /// Makes a checksum of no fields so far.
    pub fn new() -> Self
        ensures { result ≡ register_of (framed []) }
    {
        AuditHasher {
            checksum: Crc32c::new(),
        }
    }

    /// After this digest, the name of the event of a task's visit, and its number, of whose sixteen bytes the first
    /// eight are zeros and the others these.
    #[inline(always)]
    pub fn of_task(digest: [u8; 4], number: [u8; 8]) -> Self
        ensures { result ≡ register_of (framed (digest ∷ task_event ∷ small_number number ∷ [])) }
    {
        let mut checksum = Crc32c::at_task(digest);
        checksum.update_word(number);
        AuditHasher { checksum }
    }

    /// Takes a further field in: its length as eight bytes, the highest first, and its bytes.
    pub fn update(&mut self, field: &[u8])
        ensures register { self.new ≡ byte_steps self.old (framed_field field.now) }
        ensures fields { (fields : List (List ℕ)) → self.old ≡ register_of (framed fields)
            → self.new ≡ register_of (framed (fields ++ field.now ∷ [])) }
    {
        self.begin_field(field.len());
        self.checksum.update(field);
    }

    /// Takes the bytes of `bufs` in as one field, wherever their chunks end.
    pub fn update_bufs(&mut self, bufs: &IoBufs)
        ensures register { self.new ≡ byte_steps self.old (framed_field bufs.now.bytes) }
        ensures fields { (fields : List (List ℕ)) → self.old ≡ register_of (framed fields)
            → self.new ≡ register_of (framed (fields ++ bufs.now.bytes ∷ [])) }
    {
        self.begin_field(bufs.len());
        for index in 0..bufs.chunk_count() {
            self.checksum.update(bufs.chunk_at(index));
        }
    }

    /// Takes the length of a field in.
    #[inline(always)]
    fn begin_field(&mut self, length: usize)
        ensures { self.new ≡ byte_steps self.old (to_be_bytes w64 length) }
    {
        self.checksum.update_word((length as u64).to_be_bytes());
    }

    /// Returns the checksum of all fields as four bytes, the highest first.
    pub fn finalize(self) -> [u8; 4]
        ensures register { result ≡ to_be_bytes w32 (bit_xor self all_ones) }
        ensures digest { (fields : List (List ℕ)) → self ≡ register_of (framed fields) → result ≡ fields_digest fields }
        ensures one_way { IsFramedOneWay }
    {
        self.checksum.finish().to_be_bytes()
    }
}
