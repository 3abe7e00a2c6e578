//! CRC-32C, the checksum of Castagnoli's polynomial, as in RFC 3720.
//!
//! Its definition goes bit by bit, and the code takes eight bytes at a time. The register's steps are linear over
//! exclusive or. So eight bytes, or four, are added to the register all at once, and each byte of the sum is looked up
//! by itself in the table for its place.

ghost use Rattle.std.specs.Prelude.{◌≡◌, ◌++◌, [], ℕ, List, bit_xor};
ghost use Rattle.rt_hasher.specs.Crc32c.{all_ones, byte_step, byte_steps, register_of, crc32c};
ghost use Rattle.rt_hasher.specs.TaskEvent.{task_front};

use crate::crc32c_tables::remainder;
use crate::task_tables::task_remainder;
use std::marker::Model;

/// The register at the number of a task, where the digest before is four zeros.
const AFTER_ZEROS: u32 = 0x0861_0569;

/// A checksum that is fed bytes, in pieces of any size. Contracts see the register.
#[derive(Debug, Drop)]
pub struct Crc32c {
    register: u32,
}

impl Model for Crc32c {
    ghost use Rattle.std.specs.Prelude.{ℕ};

    ghost Value = { ℕ };

    ghost view = { λ c. c.register };
}

impl Crc32c {
    /// Makes the checksum of no bytes so far.
    pub fn new() -> Self
        ensures { result ≡ register_of [] }
    {
        Crc32c { register: u32::MAX }
    }

    /// After this digest and what follows it in the event of a task's visit, up to the low eight bytes of its number.
    #[inline(always)]
    pub(crate) fn at_task(digest: [u8; 4]) -> Self
        ensures { result ≡ register_of (task_front digest) }
    {
        let [first, second, third, last] = digest;
        let register = AFTER_ZEROS
            ^ task_remainder(last, 0)
            ^ task_remainder(third, 1)
            ^ task_remainder(second, 2)
            ^ task_remainder(first, 3);
        Crc32c { register }
    }

    /// Takes further bytes in, in pieces of any size.
    pub fn update(&mut self, bytes: &[u8])
        ensures register { self.new ≡ byte_steps self.old bytes.now }
        ensures taken { (taken : List ℕ) → self.old ≡ register_of taken → self.new ≡ register_of (taken ++ bytes.now) }
    {
        self.register = take_bytes(self.register, bytes);
    }

    /// Takes eight further bytes in.
    #[inline(always)]
    pub(crate) fn update_word(&mut self, word: [u8; 8])
        ensures { self.new ≡ byte_steps self.old word }
    {
        self.register = take_word(self.register, word);
    }

    /// Returns the checksum of all bytes. The one that is published for the digits `123456789` is `0xe3069283`.
    pub fn finish(self) -> u32
        ensures register { result ≡ bit_xor self all_ones }
        ensures checksum { (taken : List ℕ) → self ≡ register_of taken → result ≡ crc32c taken }
    {
        self.register ^ u32::MAX
    }
}

/// Returns the register after bytes.
fn take_bytes(register: u32, bytes: &[u8]) -> u32
    ensures { result ≡ byte_steps register bytes.now }
{
    let mut register = register;
    let mut left = bytes;
    while let Some((word, rest)) = left.split_first_chunk::<8>() {
        register = take_word(register, *word);
        left = rest;
    }
    take_rest(register, left)
}

/// The register after a few bytes.
#[inline(always)]
fn take_rest(register: u32, bytes: &[u8]) -> u32
    ensures { result ≡ byte_steps register bytes.now }
{
    match bytes.split_first_chunk::<4>() {
        Some((half, rest)) => take_each(take_half(register, *half), rest),
        None => take_each(register, bytes),
    }
}

/// The register after bytes, one at a time.
#[inline(always)]
fn take_each(register: u32, bytes: &[u8]) -> u32
    ensures { result ≡ byte_steps register bytes.now }
{
    let mut register = register;
    for byte in bytes {
        register = take_byte(register, *byte);
    }
    register
}

/// The register after eight bytes.
#[inline(always)]
fn take_word(register: u32, word: [u8; 8]) -> u32
    ensures { result ≡ byte_steps register word }
{
    let sum = u64::from_le_bytes(word) ^ register as u64;
    let [first, second, third, fourth, fifth, sixth, seventh, last] = sum.to_le_bytes();
    remainder(first, 7)
        ^ remainder(second, 6)
        ^ remainder(third, 5)
        ^ remainder(fourth, 4)
        ^ remainder(fifth, 3)
        ^ remainder(sixth, 2)
        ^ remainder(seventh, 1)
        ^ remainder(last, 0)
}

/// The register after four bytes.
#[inline(always)]
fn take_half(register: u32, half: [u8; 4]) -> u32
    ensures { result ≡ byte_steps register half }
{
    let sum = u32::from_le_bytes(half) ^ register;
    let [first, second, third, last] = sum.to_le_bytes();
    remainder(first, 3) ^ remainder(second, 2) ^ remainder(third, 1) ^ remainder(last, 0)
}

/// The register after a byte.
#[inline(always)]
fn take_byte(register: u32, byte: u8) -> u32
    ensures { result ≡ byte_step register byte }
{
    let sum = register ^ byte as u32;
    remainder((sum % 256) as u8, 0) ^ (sum / 256)
}
