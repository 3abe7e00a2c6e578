//! Tests of the network in memory, alone and under a network that notes what passes through it.
#![tactic(auto)]

#[cfg(test)]
mod calls;
#[cfg(test)]
mod line;
#[cfg(test)]
mod listeners;
#[cfg(test)]
mod tests;
