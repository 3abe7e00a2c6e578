// The channels of a network by their numbers.
ghost use Rattle.std.specs.Prelude.{◌≡◌, is_some};
ghost use Rattle.rt_net.specs.Network.{live_sink, live_stream, with_closed_sink, with_closed_stream, sink_wakes, stream_wakes};

use crate::pipe::Pipe;

/// Returns whether a live sink has the number.
pub fn has_sink(pipes: &Vec<Pipe>, number: u64) -> bool
    ensures { result ≡ is_some (live_sink pipes.now.items number) }
{
    pipes
        .get(number as usize)
        .is_some_and(|pipe| pipe.has_sink())
}

/// Returns whether a live stream has the number.
pub fn has_stream(pipes: &Vec<Pipe>, number: u64) -> bool
    ensures { result ≡ is_some (live_stream pipes.now.items number) }
{
    pipes
        .get(number as usize)
        .is_some_and(|pipe| pipe.has_stream())
}

/// Closes the sink of this number, and returns the receiver that this wakes.
pub fn close_sink(pipes: &mut Vec<Pipe>, number: u64) -> Option<u64>
    ensures woken { result ≡ sink_wakes pipes.old.items number }
    ensures closed { pipes.new.items ≡ with_closed_sink pipes.old.items number }
{
    if !has_sink(pipes, number) {
        return None;
    }
    pipes[number as usize].close_sink()
}

/// Closes the stream of this number, and returns the sender that this wakes.
pub fn close_stream(pipes: &mut Vec<Pipe>, number: u64) -> Option<u64>
    ensures woken { result ≡ stream_wakes pipes.old.items number }
    ensures closed { pipes.new.items ≡ with_closed_stream pipes.old.items number }
{
    if !has_stream(pipes, number) {
        return None;
    }
    pipes[number as usize].close_stream()
}
