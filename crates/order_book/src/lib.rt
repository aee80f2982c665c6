//! An order book: limit orders that trade by price, and at equal prices by age.
#![tactic(auto)]

mod auction;
mod book;
mod error;
mod ladder;
pub mod laws;
mod level;
mod new_order;
mod order;
mod orders;
mod price;
mod queue;
mod settling;
mod side;

pub use auction::Auction;
pub use book::OrderBook;
pub use error::{AddingError, PlacingError, ReplacingError};
pub use level::{Depth, Level};
pub use new_order::{NewOrder, OrderKind};
pub use order::{Order, OrderId, Trade};
pub use orders::Orders;
pub use price::{price_from_signed, price_to_signed};
pub use queue::OrderQueue;
pub use side::Side;
pub use sorted_arena::ReallocationError;
