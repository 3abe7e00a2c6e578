//! Tests of the lowest parts, of buffers, supervision and the journal: what no clause says of them, and each call once.
#![tactic(auto)]

#[cfg(test)]
mod base;
#[cfg(test)]
mod bufs;
#[cfg(test)]
mod digest;
#[cfg(test)]
mod journal;
#[cfg(test)]
mod signals;
#[cfg(test)]
mod supervision;
#[cfg(test)]
mod told;
