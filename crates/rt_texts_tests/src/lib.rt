//! Tests of what is read and written as text: scenarios, and the text of metrics.
#![tactic(auto)]

#[cfg(test)]
mod metrics;
#[cfg(test)]
mod scenarios;
#[cfg(test)]
mod sizes;
#[cfg(test)]
mod told;
