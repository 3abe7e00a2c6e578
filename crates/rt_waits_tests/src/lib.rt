//! Tests of what waits and what draws: many slots, signals, guards and draws at once.
#![tactic(auto)]

#[cfg(test)]
mod many;
