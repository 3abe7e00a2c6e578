// A refusal that hands back what the call was to spend.

use crate::error::Error;

/// A refusal that hands back what the call was to spend, and says why it was refused.
#[derive(Debug)]
pub struct Refused<B> {
    pub back: B,
    pub error: Error,
}
