//! Self-trade prevention: an order is placed that may not trade with some of the resting orders, as with those of its own owner.
#![tactic(auto)]

mod cancelling;
mod placing;
mod policy;
mod settling;
mod survey;

pub use placing::place;
pub use policy::SelfTrade;
