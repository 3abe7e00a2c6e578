// Standard output as a sink: the trusted edge.
ghost use Rattle.std.specs.Prelude.{◌≡◌, None};

use crate::failed::Failed;
use crate::retried::write_retried;
use crate::sink::Sink8;
use std::io::Stdout;
use std::marker::Model;
use std::rt::HostRuntime;

/// Standard output. Contracts see how many writes have failed, with the tries that a signal cut
/// short, and nothing of the content.
#[derive(Drop)]
pub struct StdSink {
    stdout: Stdout,
    errors: u64,
}

impl Model for StdSink {
    ghost use Rattle.std.specs.Prelude.{ℕ};

    ghost Value = { ℕ };

    ghost view = { λ s. s.errors };
}

impl StdSink {
    /// Opens standard output, with no fault so far.
    pub fn new(rt: &HostRuntime) -> StdSink
        ensures { result ≡ 0 }
    {
        StdSink {
            stdout: rt.stdout(),
            errors: 0,
        }
    }
}

impl Sink8 for StdSink {
    ghost held = { λ _. None };

    ghost faults = { λ s. s };

    fn write(&mut self, piece: &[u8]) -> Result<usize, Failed> {
        write_retried(&mut self.stdout, &mut self.errors, piece)
    }
}
