//! Tests of `rt_scripts`: simulations of what no text of cases can say, over sources and sinks in memory.
#![tactic(auto)]

#[cfg(test)]
mod built;
#[cfg(test)]
mod simulations;
