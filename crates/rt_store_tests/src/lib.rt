//! Tests of the store: the worked examples, each call once, and many of each.
#![tactic(auto)]

#[cfg(test)]
mod crashes;
#[cfg(test)]
mod free;
#[cfg(test)]
mod sizes;
#[cfg(test)]
mod stores;
