//! The bytes of a reply.

ghost use Rattle.std.specs.Prelude.{◌≡◌, length, IfOk};

use rt_base::NoMemory;
use std::alloc::Global;
use std::marker::Model;

/// The bytes of a reply, behind a pointer, since few entries have them. Contracts see their list.
#[derive(Debug, Drop)]
pub struct Payload {
    inner: Box<Vec<u8>>,
}

impl Model for Payload {
    ghost use Rattle.std.specs.Prelude.{ℕ, List};

    ghost Value = { List ℕ };

    ghost view = { λ p. p.inner.value.items };
}

impl Payload {
    /// Makes a payload of a copy of these bytes.
    pub fn of(alloc: Global, bytes: &[u8]) -> Result<Payload, NoMemory>
        ensures { IfOk result (λ payload. payload ≡ bytes.now) }
    {
        let bytes = bytes.to_vec(alloc)?;
        let inner = Box::new(alloc, bytes)?;
        Ok(Payload { inner })
    }

    /// Puts other bytes, as many, in the place of those that are kept. It takes no memory.
    pub fn set(&mut self, bytes: &[u8])
        requires { length bytes.now ≡ length self.old }
        ensures { self.new ≡ bytes.now }
    {
        self.inner.copy_from_slice(bytes);
    }

    /// Returns the bytes.
    pub fn as_slice(&self) -> &[u8]
        ensures { result.now ≡ self.now }
    {
        self.inner.as_slice()
    }
}
