// The makers of a channel.
ghost use Rattle.std.specs.Prelude.{◌≡◌, IfOk, IfErr, OnOk, OnErr, length};
ghost use Rattle.rt_base.specs.declared.error.Error.TheVariants.{NoMemory};
ghost use Rattle.rt_net.specs.Calls.{opened, idle_sink, idle_stream};
ghost use Rattle.rt_net.specs.Kept.{moved_to};

use crate::{DEFAULT_BUFFER_SIZE, Net, Sink, Stream};
use rt_base::Error;

/// Makes channels in memory.
#[derive(Debug, Drop)]
pub struct Channel;

impl Channel {
    /// Makes a channel with a buffer of 65,536 bytes, and returns its two halves, which have the next number of the
    /// network.
    pub fn init(net: &mut Net) -> Result<(Sink, Stream), Error>
        ensures halves { IfOk result (λ r. r ≡ (idle_sink (length net.old.state.channels), idle_stream (length net.old.state.channels))) }
        ensures opens { OnOk result (net.new ≡ moved_to net.old (opened net.old.state 65536)) }
        ensures refused { OnErr result (net.new ≡ net.old) }
        ensures cause { IfErr result (λ e. e ≡ NoMemory) }
    {
        Channel::init_with_buffer_size(net, DEFAULT_BUFFER_SIZE)
    }

    /// Makes a channel with a buffer of this many bytes, and returns its two halves, which have the next number of
    /// the network. A `send` is pending while more are left, and a `recv` takes as many.
    pub fn init_with_buffer_size(net: &mut Net, buffer_size: usize) -> Result<(Sink, Stream), Error>
        ensures halves { IfOk result (λ r. r ≡ (idle_sink (length net.old.state.channels), idle_stream (length net.old.state.channels))) }
        ensures opens { OnOk result (net.new ≡ moved_to net.old (opened net.old.state buffer_size)) }
        ensures refused { OnErr result (net.new ≡ net.old) }
        ensures cause { IfErr result (λ e. e ≡ NoMemory) }
    {
        Ok(net.open(buffer_size)?)
    }
}
