// A change that a crash may undo.

use crate::mutation::Mutation;

/// A change, and what it takes to undo it.
#[derive(Drop)]
pub struct Change {
    pub mutation: Mutation,
    pub before: Before,
}

/// What a change wrote over: the bytes from `at` on, how many bytes were held, and how many of them the blob had.
#[derive(Drop)]
pub struct Before {
    pub at: usize,
    pub saved: Vec<u8>,
    pub held: usize,
    pub len: usize,
}
