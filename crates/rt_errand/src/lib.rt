//! Small task types of one's own, from their definitions to their runs: an errand, a retry that pauses longer each time,
//! a crew, whose first task spawns another and waits for it, a chief, which waits with a limit or a choice, a client, which
//! hands the sender of a slot to its worker, a courier, which passes a parcel through a slot, an heir, which spawns below
//! a node that has ended, a keeper, which serves until its run is stopped, a napper, which polls a poller of one's own, and
//! a dealer, which draws.
#![tactic(auto)]

mod chief;
mod client;
mod courier;
mod crew;
mod dealer;
mod errand;
mod heir;
mod keeper;
mod maker;
mod nap;
mod retry;

pub use chief::{Chief, Plan, RootChief};
pub use client::{Client, RootClient};
pub use courier::{Courier, Parcel, RootCourier};
pub use crew::{Crew, RootCrew, RootPair};
pub use dealer::Dealer;
pub use errand::{Errand, Stage};
pub use heir::{Heir, RootHeir};
pub use keeper::{Keeper, RootKeeper};
pub use maker::RootErrand;
pub use nap::{Nap, Napper};
pub use retry::{Retry, RootRetry};
