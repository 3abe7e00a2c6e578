//! Where a run is.

ghost use Rattle.std.specs.Prelude.{◌≡◌, IfOk, ◌↔◌, IsTrue};
ghost use Rattle.rt_model.specs.Effects.{left_of, entered_by, ended, ends_in_panic, finished, left_pending, leaving, node_ended, cleans, cause_of, is_closing};
ghost use Rattle.rt_model.specs.Rules.{MayClose};
ghost use Rattle.rt_walk.specs.Stage.{phase_of};

use crate::left::Left;
use rt_audit::FinishCause;
use rt_model::Outcome;
use std::alloc::Global;

/// Where a run is, with what is left of a round under way, or the cause that it has reached.
#[derive(Drop)]
pub enum Stage {
    Blank,
    Making,
    Between,
    Visiting {
        left: Left,
    },
    Entered {
        task: u64,
        left: Left,
    },
    Polling {
        task: u64,
        left: Left,
    },
    Halted {
        task: u64,
    },
    Ending {
        task: u64,
        result: Option<Outcome>,
        left: Left,
    },
    Leaving {
        task: u64,
        result: Option<Outcome>,
        left: Left,
    },
    Turning,
    Over {
        cause: FinishCause,
    },
    Cleaning {
        cause: Option<FinishCause>,
    },
    Closing {
        cause: Option<FinishCause>,
    },
    Crashed {
        cause: Option<FinishCause>,
    },
    Finished {
        cause: FinishCause,
    },
}

impl Stage {
    /// Returns what is left of the round under way.
    pub fn into_left(self, alloc: Global) -> Left
        ensures { result ≡ left_of (phase_of self) }
    {
        match self {
            Stage::Visiting { left } => left,
            Stage::Entered { left, .. } => left,
            Stage::Polling { left, .. } => left,
            Stage::Ending { left, .. } => left,
            Stage::Leaving { left, .. } => left,
            _ => Left::new(alloc),
        }
    }

    /// Returns where a run is after the event of a visit: the root isn't polled where a panic is kept, and a task
    /// that is flagged ends unpolled.
    pub fn after_event(halts: bool, flagged: bool, task: u64, left: Left) -> Stage
        ensures { phase_of result ≡ entered_by halts flagged task left }
    {
        if halts {
            Stage::Halted { task }
        } else if flagged {
            Stage::Ending {
                task,
                result: None,
                left,
            }
        } else {
            Stage::Polling { task, left }
        }
    }

    /// Returns where a run is after a pending answer: a task that was flagged ends.
    pub fn after_pending(flagged: bool, task: u64, left: Left) -> Stage
        ensures { phase_of result ≡ left_pending flagged task left }
    {
        if flagged {
            Stage::Ending {
                task,
                result: None,
                left,
            }
        } else {
            Stage::Visiting { left }
        }
    }

    /// Returns where a run is after the last answer of a task: the root's ends the rounds for this cause, and another
    /// ends with this result.
    pub fn after_last(
        is_root: bool,
        cause: FinishCause,
        outcome: Outcome,
        task: u64,
        left: Left,
    ) -> Stage
        ensures { phase_of result ≡ finished is_root cause outcome task left }
    {
        if is_root {
            Stage::Over { cause }
        } else {
            Stage::Ending {
                task,
                result: Some(outcome),
                left,
            }
        }
    }

    /// Returns where a run is after an end, which leaves its visit where no node ends after it, if it was within one.
    pub fn into_ended(self, settles: bool) -> Stage
        ensures { phase_of result ≡ ended settles (phase_of self) }
    {
        match self {
            Stage::Ending { left, .. } if settles => Stage::Visiting { left },
            Stage::Ending { task, result, left } => Stage::Leaving { task, result, left },
            stage => stage,
        }
    }

    /// Returns where a run is after the end of a node.
    pub fn into_node_ended(self) -> Stage
        ensures { phase_of result ≡ node_ended (phase_of self) }
    {
        match self {
            Stage::Leaving { left, .. } => Stage::Visiting { left },
            Stage::Cleaning { cause } => Stage::Closing { cause },
            stage => stage,
        }
    }

    /// Returns where a run is after the beginning of a cleanup, which ends node 0 where that hasn't ended.
    pub fn cleaned(ended: bool, cause: Option<FinishCause>) -> Stage
        ensures { phase_of result ≡ cleans ended cause }
    {
        if ended {
            Stage::Closing { cause }
        } else {
            Stage::Cleaning { cause }
        }
    }

    /// Returns who leaves the run with the end of its node.
    pub fn leaving(&self) -> Option<u64>
        ensures { result ≡ leaving (phase_of self.now) }
    {
        match self {
            Stage::Leaving { task, .. } => Some(*task),
            _ => None,
        }
    }

    /// Returns whether a task ends that reported a panic.
    pub fn ends_in_panic(&self) -> bool
        ensures { result ≡ ends_in_panic (phase_of self.now) }
    {
        matches!(
            self,
            Stage::Ending {
                result: Some(Outcome::Exited),
                ..
            }
        )
    }

    /// Returns the cause that a cleanup keeps.
    pub fn kept_cause(&self) -> Option<FinishCause>
        ensures { result ≡ cause_of (phase_of self.now) }
    {
        match self {
            Stage::Cleaning { cause } | Stage::Closing { cause } | Stage::Crashed { cause } =>
                *cause,
            _ => None,
        }
    }

    /// Returns whether a cleanup has begun and the store hasn't crashed.
    pub fn is_closing(&self) -> bool
        ensures { result ≡ is_closing (phase_of self.now) }
    {
        matches!(self, Stage::Cleaning { .. } | Stage::Closing { .. })
    }

    /// Returns whether a cleanup may begin.
    pub fn may_close(&self) -> bool
        ensures { IsTrue result ↔ MayClose (phase_of self.now) }
    {
        matches!(
            self,
            Stage::Making
                | Stage::Between
                | Stage::Visiting { .. }
                | Stage::Turning
                | Stage::Over { .. }
        )
    }
}
