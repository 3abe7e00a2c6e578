//! The error of a refused call.

ghost use Rattle.std.specs.Prelude.{◌≡◌, IfOk};

use rt_base::{Error, NoMemory};
use std::alloc::Global;
use std::marker::Model;

/// The error of a refused call, behind a pointer, since few entries have one and an error holds texts. Contracts see
/// the error.
#[derive(Debug, Drop)]
pub struct Refusal {
    inner: Box<Error>,
}

impl Model for Refusal {
    ghost use Rattle.rt_base.specs.declared.error.Error.{Error};

    ghost Value = { Error };

    ghost view = { λ r. r.inner.value };
}

impl Refusal {
    /// Keeps an error in a block of its own.
    pub fn new(alloc: Global, error: Error) -> Result<Refusal, NoMemory>
        ensures { IfOk result (λ refusal. refusal ≡ error) }
    {
        let inner = Box::new(alloc, error)?;
        Ok(Refusal { inner })
    }

    /// Puts another error in the place of the one that is kept. It takes no memory.
    pub fn set(&mut self, error: Error)
        ensures { self.new ≡ error }
    {
        *self.inner = error;
    }

    /// Returns the error, borrowed.
    pub fn error(&self) -> &Error
        ensures { result.now ≡ self.now }
    {
        &self.inner
    }
}
