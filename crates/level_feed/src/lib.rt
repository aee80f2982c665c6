//! What an order book's calls change, price level by price level, as a market-data feed publishes it.
#![tactic(auto)]

pub mod laws;
mod level;
mod placing;
mod replacing;
mod uncrossing;
mod update;

pub use level::level_update;
pub use placing::after_placing;
pub use replacing::after_replacing;
pub use uncrossing::uncross;
pub use update::LevelUpdate;
