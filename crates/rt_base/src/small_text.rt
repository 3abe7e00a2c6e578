// A text that needs no memory where it is short.
ghost use Rattle.std.specs.Prelude.{◌≡◌, ◌<◌, [], length, IfOk, IfSome, IfNone, string_bytes};
ghost use Rattle.rt_base.specs.Label.{prefixed};

use crate::label::prefixed_name;
use crate::no_memory::NoMemory;
use crate::short_text::ShortText;
use crate::text::Text;
use std::alloc::Global;
use std::marker::Model;

/// The greatest number of bytes that are kept in place.
const MOST: usize = 22;

/// How a small text is kept. A long one is behind a pointer, so that the whole is no larger than a `String`.
#[derive(Debug, Drop)]
pub enum TextKind {
    Short(ShortText<MOST>),
    Long(Box<Text>),
}

/// A text of which up to 22 bytes are kept in place, without a block of memory; a longer one takes memory, a block more
/// than a `String` does. Contracts see its bytes.
#[derive(Debug, Drop)]
pub struct SmallText {
    kind: TextKind,
}

impl Model for SmallText {
    ghost use Rattle.std.specs.Prelude.{ℕ, List};
    ghost use Rattle.rt_base.specs.SmallText.{kind_text, IsKept};

    ghost Value = { List ℕ };

    ghost view = { λ t. kind_text t.kind };

    ghost invariant = { λ t. IsKept t.kind };
}

impl SmallText {
    /// Returns the text of no bytes.
    #[inline]
    pub fn empty() -> SmallText
        ensures { result ≡ [] }
    {
        SmallText::in_place(ShortText::empty())
    }

    /// Returns a copy of a text of any length.
    pub fn of(alloc: Global, text: &str) -> Result<SmallText, NoMemory>
        ensures { IfOk result (λ small. small ≡ text.now) }
    {
        match ShortText::of(text) {
            Some(short) => Ok(SmallText::in_place(short)),
            None => SmallText::behind(alloc, text.to_owned(alloc)?),
        }
    }

    /// Returns the prefix, an underscore and the name, or the name alone where the prefix is empty.
    pub fn prefixed(alloc: Global, prefix: &str, name: &str) -> Result<SmallText, NoMemory>
        ensures { IfOk result (λ full. full ≡ prefixed prefix.now name.now) }
    {
        if prefix.is_empty() {
            return SmallText::of(alloc, name);
        }
        let full = prefixed_name(alloc, prefix, name)?;
        match ShortText::of(full.as_str()) {
            Some(short) => Ok(SmallText::in_place(short)),
            None => SmallText::behind(alloc, full),
        }
    }

    fn in_place(short: ShortText<MOST>) -> SmallText
        ensures { result ≡ short }
    {
        SmallText {
            kind: TextKind::Short(short),
        }
    }

    /// Keeps a text that is too long to be kept in place.
    fn behind(alloc: Global, text: String) -> Result<SmallText, NoMemory>
        requires { 22 < length (string_bytes text) }
        ensures { IfOk result (λ small. small ≡ string_bytes text) }
    {
        let kind = TextKind::Long(Box::new(alloc, Text::of(text))?);
        Ok(SmallText { kind })
    }

    /// Returns the text where it is kept in place: where it has at most 22 bytes.
    #[inline]
    pub fn short(&self) -> Option<&ShortText<MOST>>
        ensures short { IfSome result (λ short. short.now ≡ self.now) }
        ensures long { IfNone result (22 < length self.now) }
    {
        match &self.kind {
            TextKind::Short(short) => Some(short),
            TextKind::Long(_) => None,
        }
    }

    /// Returns the text.
    #[inline]
    pub fn as_str(&self) -> &str
        ensures { result.now ≡ self.now }
    {
        match &self.kind {
            TextKind::Short(short) => short.as_str(),
            TextKind::Long(text) => text.as_str(),
        }
    }
}
