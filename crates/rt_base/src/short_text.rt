// A short text in place.
ghost use Rattle.std.specs.Prelude.{◌≡◌, ◌≤◌, ◌<◌, ◌⊎◌, [], length, IfSome, IfNone};

use std::cmp::Ordering;
use std::hash::{Hash, Hasher};
use std::marker::Model;
use std::str;

/// A text of at most `N` bytes, which needs no memory. Contracts see its bytes.
#[derive(Debug, Drop)]
pub struct ShortText<const N: usize> {
    length: u8,
    bytes: [u8; N],
}

impl<const N: usize> Model for ShortText<N> {
    ghost use Rattle.std.specs.Prelude.{◌≤◌, ℕ, List, take, IsUtf8};

    ghost Value = { List ℕ };

    ghost view = { λ t. take t.length t.bytes };

    ghost invariant = { λ t. (t.length ≤ N) × IsUtf8 (take t.length t.bytes) };
}

impl<const N: usize> ShortText<N> {
    /// Returns the text of no bytes.
    #[inline(always)]
    pub fn empty() -> ShortText<N>
        ensures { result ≡ [] }
    {
        ShortText {
            length: 0,
            bytes: [0; N],
        }
    }

    /// Copies this text, where it has at most `N` bytes and at most 255.
    #[inline(always)]
    pub fn of(text: &str) -> Option<ShortText<N>>
        ensures text { IfSome result (λ short. short ≡ text.now) }
        ensures short { IfSome result (λ short. length short ≤ N) }
        ensures long { IfNone result ((N < length text.now) ⊎ (255 < length text.now)) }
    {
        let text = text.as_bytes();
        if text.len() > N {
            return None;
        }
        let length = u8::try_from(text.len()).ok()?;
        let mut bytes = [0u8; N];
        bytes[..text.len()].copy_from_slice(text);
        Some(ShortText { length, bytes })
    }

    /// Returns a copy of the text.
    #[inline(always)]
    pub fn copy(&self) -> ShortText<N>
        ensures { result ≡ self.now }
    {
        ShortText {
            length: self.length,
            bytes: self.bytes,
        }
    }

    /// Returns the bytes of the text.
    #[inline(always)]
    pub fn as_bytes(&self) -> &[u8]
        ensures { result.now ≡ self.now }
    {
        self.as_str().as_bytes()
    }

    /// Returns the text.
    #[inline(always)]
    pub fn as_str(&self) -> &str
        ensures { result.now ≡ self.now }
    {
        // By the invariant they are UTF-8.
        unsafe { str::from_utf8_unchecked(&self.bytes[..self.length as usize]) }
    }
}

impl<const N: usize> PartialEq for ShortText<N> {
    ghost use Rattle.std.specs.Prelude.{nat_eq};
    ghost use Rattle.std.specs.Cmp.{partial_equiv_from_equiv};
    ghost use Rattle.std.specs.Cmp.Lexicographic.{pointwise, nat_list_eq_equiv};

    ghost eq = { pointwise nat_eq };

    ghost laws = { partial_equiv_from_equiv nat_list_eq_equiv };

    fn eq(&self, other: &ShortText<N>) -> bool {
        self.as_str() == other.as_str()
    }
}

impl<const N: usize> Eq for ShortText<N> {
    ghost use Rattle.std.specs.Cmp.Lexicographic.{nat_list_eq_equiv};

    ghost laws = { nat_list_eq_equiv };
}

/// The order of the bytes, one by one.
impl<const N: usize> PartialOrd for ShortText<N> {
    ghost use Rattle.std.specs.Prelude.{Some};
    ghost use Rattle.std.specs.Cmp.Lexicographic.{texts_po};
    ghost use Rattle.rt_base.specs.Attributes.{text_cmp};

    ghost partial_cmp = { λ x y. Some (text_cmp x y) };

    ghost laws = { texts_po };

    fn partial_cmp(&self, other: &ShortText<N>) -> Option<Ordering> {
        Some(self.cmp(other))
    }
}

impl<const N: usize> Ord for ShortText<N> {
    ghost use Rattle.std.specs.Cmp.Lexicographic.{nat_list_cmp_total, texts_ties};
    ghost use Rattle.rt_base.specs.Attributes.{text_cmp};
    ghost use mathlib.Core.Path.{refl};

    ghost cmp = { text_cmp };

    ghost total = { nat_list_cmp_total };

    ghost matches_partial_cmp = { λ x y. refl };

    ghost matches_eq = { texts_ties };

    fn cmp(&self, other: &ShortText<N>) -> Ordering {
        self.as_str().cmp(other.as_str())
    }
}

impl<const N: usize> Hash for ShortText<N> {
    ghost use Rattle.std.specs.Hash as fed;
    ghost use Rattle.std.specs.Hash.{same_Alike};
    ghost use Rattle.std.specs.Cmp.Lexicographic.{bytes_decides};

    ghost hash_input = { fed.str };

    ghost respects_eq = { (same_Alike fed.str bytes_decides).fed };

    fn hash<H: Hasher>(&self, state: &mut H) {
        self.as_str().hash(state);
    }
}
