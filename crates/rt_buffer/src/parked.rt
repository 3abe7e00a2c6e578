// A sync that a test holds back, or a gate.

use rt_base::Error;

/// The task of the last pending poll, whether a poll or a call came, and the answer once it is released.
#[derive(Debug, Drop)]
pub struct Parked {
    pub(crate) task: Option<u64>,
    pub(crate) is_blocked: bool,
    pub(crate) answer: Option<Result<(), Error>>,
}
