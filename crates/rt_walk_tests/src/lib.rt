//! Tests of the walker: whole journals, and damaged copies of them.
#![tactic(auto)]

#[cfg(test)]
mod copies;
#[cfg(test)]
mod many;
#[cfg(test)]
mod walks;
