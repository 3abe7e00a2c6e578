// Standard input as a source: the trusted edge.
ghost use Rattle.std.specs.Prelude.{◌≡◌, None};

use crate::failed::Failed;
use crate::retried::read_retried;
use crate::source::Source;
use std::io::Stdin;
use std::marker::Model;
use std::rt::HostRuntime;

/// Standard input. Contracts see how many reads have failed, with the tries that a signal cut
/// short, and nothing of the content.
#[derive(Drop)]
pub struct StdSource {
    stdin: Stdin,
    errors: u64,
}

impl Model for StdSource {
    ghost use Rattle.std.specs.Prelude.{ℕ};

    ghost Value = { ℕ };

    ghost view = { λ s. s.errors };
}

impl StdSource {
    /// Opens standard input, with no fault so far.
    pub fn new(rt: &HostRuntime) -> StdSource
        ensures { result ≡ 0 }
    {
        StdSource {
            stdin: rt.stdin(),
            errors: 0,
        }
    }
}

impl Source for StdSource {
    ghost left = { λ _. None };

    ghost faults = { λ s. s };

    fn read(&mut self, buf: &mut [u8]) -> Result<usize, Failed> {
        read_retried(&mut self.stdin, &mut self.errors, buf)
    }
}
