//! A text behind a pointer.

ghost use Rattle.std.specs.Prelude.{◌≡◌, IfOk};

use rt_base::{NoMemory, ShortText, SmallText};
use std::alloc::Global;
use std::marker::Model;

/// A label of at most 22 bytes, which is kept in place and takes no memory.
pub type ShortLabel = ShortText<22>;

/// A label that is behind a pointer, since few entries have one. Contracts see its bytes.
#[derive(Debug, Drop)]
pub struct Label {
    inner: Box<SmallText>,
}

impl Model for Label {
    ghost use Rattle.std.specs.Prelude.{ℕ, List};

    ghost Value = { List ℕ };

    ghost view = { λ l. l.inner.value };
}

impl Label {
    /// Makes a label of a copy of a text.
    pub fn of(alloc: Global, text: &str) -> Result<Label, NoMemory>
        ensures { IfOk result (λ label. label ≡ text.now) }
    {
        let inner = Box::new(alloc, SmallText::of(alloc, text)?)?;
        Ok(Label { inner })
    }

    /// Returns the text of the label.
    #[inline]
    pub fn as_str(&self) -> &str
        ensures { result.now ≡ self.now }
    {
        self.inner.as_str()
    }
}
