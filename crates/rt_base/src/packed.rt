// Numbers without an alignment.
ghost use Rattle.std.specs.Prelude.{◌≡◌};

use std::marker::Model;

/// A number in eight bytes without an alignment, so that what holds it needs no padding before it. Packing and
/// unpacking cost less than a first touch of the memory that the padding would take. Contracts see the number.
#[derive(Clone, Copy, Debug)]
pub struct Packed {
    bytes: [u8; 8],
}

impl Model for Packed {
    ghost use Rattle.std.specs.Prelude.{◌≡◌, ◌<◌, ℕ, get_or, length};
    ghost use Rattle.std.specs.Int.{from_le_bytes, to_le_bytes, w64};
    ghost use Rattle.std.proofs.lemmas.Nat.{le_bytes_8};
    ghost use mathlib.Core.Path.{refl};

    ghost Value = { ℕ };

    ghost view = { λ p. from_le_bytes w64 p.bytes };

    ghost invariant = { λ p. (length p.bytes ≡ 8) × ((i : ℕ) → get_or p.bytes i 0 < 256) };

    ghost inverse = { λ n. record { bytes = to_le_bytes w64 n } };

    ghost inverse_ok = { λ p h i. record { bytes = le_bytes_8 p.bytes (from_le_bytes w64 p.bytes) h.0 h.1 refl i } };
}

impl Packed {
    /// Packs a number.
    #[inline(always)]
    pub fn new(number: u64) -> Packed
        ensures { result ≡ number }
    {
        Packed {
            bytes: number.to_le_bytes(),
        }
    }

    /// Returns the number.
    #[inline(always)]
    pub fn get(&self) -> u64
        ensures { result ≡ self.now }
    {
        u64::from_le_bytes(self.bytes)
    }
}

/// A number or none, in nine bytes without an alignment. Contracts see it as an option.
#[derive(Clone, Copy, Debug)]
pub struct PackedOption {
    number: Option<Packed>,
}

impl Model for PackedOption {
    ghost use Rattle.std.specs.Prelude.{ℕ, Option};

    ghost Value = { Option ℕ };

    ghost view = { λ p. p.number };

    ghost inverse = { λ n. record { number = n } };
}

impl PackedOption {
    /// Packs this number, or none.
    #[inline(always)]
    pub fn of(number: Option<u64>) -> PackedOption
        ensures { result ≡ number }
    {
        let number = match number {
            Some(number) => Some(Packed::new(number)),
            None => None,
        };
        PackedOption { number }
    }

    /// Returns the number, if there is one.
    #[inline(always)]
    pub fn get(&self) -> Option<u64>
        ensures { result ≡ self.now }
    {
        match &self.number {
            Some(number) => Some(number.get()),
            None => None,
        }
    }
}
