//! Tests of `rt_core`: each call once, and whole journals of small runs.
#![tactic(auto)]

#[cfg(test)]
mod calls;
#[cfg(test)]
mod join_all_tests;
#[cfg(test)]
mod signal_tests;
#[cfg(test)]
mod tests;
#[cfg(test)]
mod told;
