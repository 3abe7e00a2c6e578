//! Tests of the machine and of the world over it: runs beside their journals, and each call once.
#![tactic(auto)]

#[cfg(test)]
mod machine;
#[cfg(test)]
mod numbers;
#[cfg(test)]
mod replay;
#[cfg(test)]
mod said;
#[cfg(test)]
mod steady;
#[cfg(test)]
mod world;
