//! Channels and a network in memory: bytes go from a sink to its stream, listeners take connections, and each
//! call names the task that it wakes.
#![tactic(auto)]

mod acceptor;
mod byte_queue;
mod channel;
mod channels;
mod forgotten;
mod half;
mod net;
mod network;
mod pipe;
mod reply;
mod tokens;
mod waited;

pub use acceptor::Connection;
pub use channel::Channel;
pub use half::{Half, Parked};
pub use net::{DEFAULT_BUFFER_SIZE, Net};
pub use network::{ListenerOf, Network, SinkOf, StreamOf};
pub use reply::Reply;
pub use tokens::{Accepting, Listener, Receiving, Sending, Sink, Stream};
