//! How a call on a network ended, as tests compare it.

use rt_base::{Error, Poll};
use rt_bufs::IoBufs;

#[derive(Clone, Copy, Debug, PartialEq, Eq)]
pub enum Ending {
    Done,
    Got(usize),
    Waits,
    Closed,
    RecvFailed,
    SendFailed,
    BindFailed,
    ConnectionFailed,
    PortsExhausted,
    UnknownToken,
    Other,
}

fn named(error: &Error) -> Ending {
    match error {
        Error::Closed => Ending::Closed,
        Error::RecvFailed => Ending::RecvFailed,
        Error::SendFailed => Ending::SendFailed,
        Error::BindFailed => Ending::BindFailed,
        Error::ConnectionFailed => Ending::ConnectionFailed,
        Error::PortsExhausted => Ending::PortsExhausted,
        Error::UnknownToken => Ending::UnknownToken,
        _ => Ending::Other,
    }
}

pub fn seen_error(error: Error) -> Ending {
    let ending = named(&error);
    drop(error);
    ending
}

pub fn seen(answer: Result<Poll<()>, Error>) -> Ending {
    match answer {
        Ok(Poll::Ready(())) => Ending::Done,
        Ok(Poll::Pending) => Ending::Waits,
        Err(error) => seen_error(error),
    }
}

fn counted(bufs: IoBufs) -> Ending {
    let count = bufs.len();
    drop(bufs);
    Ending::Got(count)
}

pub fn got(answer: Result<Poll<IoBufs>, Error>) -> Ending {
    match answer {
        Ok(Poll::Ready(bufs)) => counted(bufs),
        Ok(Poll::Pending) => Ending::Waits,
        Err(error) => seen_error(error),
    }
}
