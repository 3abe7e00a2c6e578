//! Tests of readers and writers: the worked examples, each call once, and stores whose syncs a test holds back, with
//! the calls that wait for those.
#![tactic(auto)]

#[cfg(test)]
mod buffers;
mod counting;
#[cfg(test)]
mod counts;
#[cfg(test)]
mod delayed;
#[cfg(test)]
mod durable;
mod free;
#[cfg(test)]
mod mock;
#[cfg(test)]
mod nested;
#[cfg(test)]
mod sizes;
#[cfg(test)]
mod waiting;
