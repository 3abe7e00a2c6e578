// A generator for runs in plain order.

use rand_core::utils::NextWord;
use rand_core::{Rng, utils};

/// What it draws, as a line: one less than a number that all from 1 to 22 divide, so that each number of a round of at most 22
/// stays in its place.
pub const STEADY_DRAW: &str = "draw 662580340005664079\n";

/// Draws one and the same word.
#[derive(Drop)]
pub struct Steady;

impl NextWord<u32> for Steady {
    ghost step = { λ steady. (154269007, steady) };

    fn next_word(&mut self) -> u32 {
        154_269_007
    }
}

impl Rng for Steady {
    ghost use Rattle.rand_core.specs.Steps.{steps_u32, stream_of};

    ghost stream = { stream_of (steps_u32 (λ steady. (154269007, steady))) };

    fn next_u32(&mut self) -> u32 {
        self.next_word()
    }

    fn next_u64(&mut self) -> u64 {
        utils::next_u64_via_u32(self)
    }

    fn fill_bytes(&mut self, dst: &mut [u8]) {
        utils::fill_bytes_via_u32(self, dst)
    }
}
