// What became of the tickets of a store that holds syncs back, by number.
ghost use Rattle.std.specs.Prelude.{◌≡◌, ◌<◌, ◌++◌, ◌∷◌, [], ℕ, length, slice_get, slice_set, vec_len, vec_capacity};
ghost use Rattle.rt_base.specs.declared.error.Error.{Error};
ghost use Rattle.rt_buffer.specs.Delayed.{given, kept, stage_of};
ghost use Rattle.rt_buffer.specs.declared.stage.Stage.{Stage};
ghost use Rattle.rt_store.specs.Answered.{CountsDone};

use rt_base::Error;
use rt_store::{Done, Ticket};

/// A ticket is held or goes on at once, is one of the inner store, or is out: answered, or given up.
#[derive(Clone, Copy, Debug)]
pub enum Stage {
    Held(Hold),
    Passed(Passed),
    Out,
}

/// A sync of this blob that waits for a release, if that holds it. One that was started counts once it is done.
#[derive(Clone, Copy, Debug)]
pub struct Hold {
    pub(crate) blob: u64,
    pub(crate) hold: Option<u64>,
    pub(crate) counts: bool,
}

/// The number of a ticket of the inner store, and the blob that is kept open for it.
#[derive(Clone, Copy, Debug)]
pub struct Passed {
    pub(crate) number: u64,
    pub(crate) blob: Option<u64>,
    pub(crate) counts: bool,
}

/// Gives a stage the next number, as a ticket.
pub fn add_ticket(tickets: &mut Vec<Stage>, stage: Stage) -> Ticket
    requires { vec_len tickets.old < vec_capacity tickets.old }
    ensures ticket { result ≡ Ticket.Numbered (length tickets.old.items) }
    ensures added { tickets.new.items ≡ tickets.old.items ++ stage ∷ [] }
{
    let number = tickets.len() as u64;
    tickets.push_reserved(stage);
    Ticket::Numbered(number)
}

/// Returns the same answer, where a ticket of the inner store that has a number gets one here.
pub fn pass_on(tickets: &mut Vec<Stage>, answer: Result<Done, Error>) -> Result<Done, Error>
    requires { vec_len tickets.old < vec_capacity tickets.old }
    ensures given { result ≡ given (length tickets.old.items) answer }
    ensures kept { tickets.new.items ≡ kept tickets.old.items answer }
    ensures counts { (old new : ℕ) → CountsDone old new answer → CountsDone old new result }
{
    match answer {
        Ok(Done::Gated(Ticket::Numbered(number))) => {
            let passed = Passed {
                number,
                blob: None,
                counts: false,
            };
            Ok(Done::Gated(add_ticket(tickets, Stage::Passed(passed))))
        }
        Ok(Done::Gated(Ticket::Ready(held))) => Ok(Done::Gated(Ticket::Ready(held))),
        Ok(Done::Now) => Ok(Done::Now),
        Err(error) => Err(error),
    }
}

/// Returns what became of a ticket. One that isn't there is out.
pub fn stage_at(tickets: &[Stage], number: u64) -> Stage
    ensures { result ≡ stage_of (slice_get tickets.now number) }
{
    match tickets.get(number as usize) {
        Some(stage) => *stage,
        None => Stage::Out,
    }
}

/// Sets what became of a ticket, where it is there.
pub fn set_stage(tickets: &mut Vec<Stage>, number: u64, stage: Stage)
    ensures { tickets.new.items ≡ slice_set tickets.old.items number stage }
{
    let place = number as usize;
    if place < tickets.len() {
        tickets[place] = stage;
    }
}
