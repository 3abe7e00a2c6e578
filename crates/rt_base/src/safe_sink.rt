// A sink in memory that never fails.
ghost use Rattle.std.specs.Prelude.{◌≡◌, [], Some, length, Ok, IfSome};
ghost use Rattle.rt_base.specs.Outside.{Appends};

use crate::failed::Failed;
use crate::sink::Sink8;
use std::alloc::Global;
use std::marker::Model;

/// A sink in memory whose writes never fail. Once it runs out of memory it keeps no more, and contracts see no content
/// from then on.
#[derive(Debug, Drop)]
pub struct SafeSink {
    bytes: Vec<u8>,
    telling: bool,
}

impl Model for SafeSink {
    ghost use Rattle.std.specs.Prelude.{ℕ, List, Option, Some, None, if◌then◌else◌};

    ghost Value = { Option (List ℕ) };

    ghost view = { λ s. if s.telling then Some s.bytes.items else None };
}

impl SafeSink {
    /// Makes an empty sink.
    pub fn new(alloc: Global) -> SafeSink
        ensures { result ≡ Some [] }
    {
        SafeSink {
            bytes: Vec::new(alloc),
            telling: true,
        }
    }

    /// Returns what was written, as long as memory didn't run out.
    pub fn as_slice(&self) -> &[u8]
        ensures { IfSome self.now (λ held. result.now ≡ held) }
    {
        self.bytes.as_slice()
    }
}

impl Sink8 for SafeSink {
    ghost held = { λ s. s };

    ghost faults = { λ _. 0 };

    /// Takes the whole piece, and never fails.
    fn write(&mut self, piece: &[u8]) -> Result<usize, Failed>
        ensures whole { result ≡ Ok (length piece.now) }
        ensures appended { Appends self.old piece.now self.new }
    {
        if self.telling {
            self.telling = self.bytes.extend_from_slice(piece).is_ok();
        }
        Ok(piece.len())
    }
}
