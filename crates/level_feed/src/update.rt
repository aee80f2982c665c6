//! `LevelUpdate`: what a feed says of one price level.

use order_book::Side;

/// What rests at a price of a side after a change.
#[derive(Clone, Copy, PartialEq, Eq, Debug)]
pub struct LevelUpdate {
    /// The side.
    pub side: Side,
    /// The price of one unit.
    pub price: u64,
    /// How much rests at this price in all: 0 if the level is gone.
    pub quantity: u128,
    /// The number of orders at this price: 0 if the level is gone.
    pub count: usize,
}
