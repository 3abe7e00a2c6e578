// The tokens of a `Net`, and what each half of a channel and each listener tells of itself.
ghost use Rattle.std.specs.Prelude.{◌≡◌, ℕ, Bool, false};

use rt_base::Addr;

/// A half from which bytes are sent, which says whether a `send` of it is started and neither answered nor given up.
pub trait Sending {
    ghost sending: { Self → Bool };

    /// Returns whether a `send` of the half waits.
    fn is_sending(&self) -> bool
        ensures { result ≡ sending self.now };
}

/// A half at which bytes are received, which says whether a `recv` of it is started and neither answered nor given up.
pub trait Receiving {
    ghost receiving: { Self → Bool };

    // The number of the stream, which no other stream of its network has. A call at another one leaves what is asked for at
    // this one.
    ghost place: { Self → ℕ };

    /// Returns whether a `recv` of the half waits.
    fn is_receiving(&self) -> bool
        ensures { result ≡ receiving self.now };
}

/// A listener, which says whether an `accept` of it is started and neither answered nor given up.
pub trait Accepting {
    ghost accepting: { Self → Bool };

    /// Returns whether an `accept` of the listener is started.
    fn is_accepting(&self) -> bool
        ensures { result ≡ accepting self.now };
}

/// The half of a channel from which bytes are sent. It must be spent by `Network::close_sink`.
#[derive(Debug)]
pub struct Sink {
    pub(crate) number: u64,
    pub(crate) sending: bool,
}

impl Sink {
    // A half of which no call was started.
    pub(crate) fn idle(number: u64) -> Sink
        ensures { result ≡ record { number = number; sending = false } }
    {
        Sink {
            number,
            sending: false,
        }
    }

    /// Returns the number of the sink, which no other sink of its `Net` has.
    pub fn number(&self) -> u64
        ensures { result ≡ self.now.number }
    {
        self.number
    }
}

impl Sending for Sink {
    ghost sending = { λ k. k.sending };

    fn is_sending(&self) -> bool {
        self.sending
    }
}

/// The half of a channel at which bytes are received. It must be spent by `Network::close_stream`.
#[derive(Debug)]
pub struct Stream {
    pub(crate) number: u64,
    pub(crate) receiving: bool,
}

impl Stream {
    // A half of which no call was started.
    pub(crate) fn idle(number: u64) -> Stream
        ensures { result ≡ record { number = number; receiving = false } }
    {
        Stream {
            number,
            receiving: false,
        }
    }

    /// Returns the number of the stream, which no other stream of its `Net` has.
    pub fn number(&self) -> u64
        ensures { result ≡ self.now.number }
    {
        self.number
    }
}

impl Receiving for Stream {
    ghost receiving = { λ k. k.receiving };

    ghost place = { λ k. k.number };

    fn is_receiving(&self) -> bool {
        self.receiving
    }
}

/// A token of a listener. It must be spent by `Network::close_listener`.
#[derive(Debug)]
pub struct Listener {
    pub(crate) number: u64,
    pub(crate) address: Addr,
    pub(crate) accepting: bool,
}

impl Listener {
    /// Returns the number of the listener, which no other listener of its `Net` has.
    pub fn number(&self) -> u64
        ensures { result ≡ self.now.number }
    {
        self.number
    }
}

impl Accepting for Listener {
    ghost accepting = { λ k. k.accepting };

    fn is_accepting(&self) -> bool {
        self.accepting
    }
}
