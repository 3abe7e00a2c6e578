// A started sync.
ghost use Rattle.std.specs.Prelude.{◌≡◌, ℕ, true};
ghost use Rattle.rt_base.specs.Counted.{Counts};
ghost use Rattle.rt_base.specs.declared.poll.Poll.{Poll};
ghost use Rattle.rt_store.specs.Answered.{IsCopy, is_numbered};
ghost use Rattle.rt_store.specs.declared.ticket.Ticket.{Ticket};

use rt_base::Error;
use std::mem;

/// A started sync: its answer, or the number by which a store holds it. One with a number must be polled until it is
/// ready, or be spent by `Storage::give_up_sync`; a ready one belongs to no store any more, and may be taken apart.
#[derive(Debug)]
pub enum Ticket {
    Ready(Result<(), Error>),
    Numbered(u64),
}

/// Whether a change is done, or waits at a gate that holds its ticket.
#[derive(Debug)]
pub enum Done {
    Now,
    Gated(Ticket),
}

impl Ticket {
    /// Makes a ticket with a number ready with this answer.
    pub fn settle(&mut self, answer: Result<(), Error>)
        requires { is_numbered self.old ≡ true }
        ensures { self.new ≡ Ticket.Ready answer }
    {
        match mem::replace(self, Ticket::Ready(answer)) {
            Ticket::Numbered(_) => {}
            Ticket::Ready(_) => unreachable!(),
        }
    }
}

/// Returns a copy of an answer, or `NoMemory` where there is no memory for one. A copy of `Ok` takes none.
pub fn copy_of(held: &Result<(), Error>) -> Result<(), Error>
    ensures copy { IsCopy held.now (Poll.Ready result) }
    ensures counts { (old new : ℕ) → Counts old new held.now → Counts old new result }
{
    match held {
        Ok(()) => Ok(()),
        Err(error) => match error.clone_value() {
            Ok(copy) => Err(copy),
            Err(_) => Err(Error::NoMemory),
        },
    }
}
