//! `Side`: buyers or sellers.

ghost use Rattle.std.specs.Prelude.{◌≡◌};
ghost use Rattle.order_book.specs.{QueueLayout.ranked, Queue.meets};

/// The side of an order. Buyers trade with sellers.
#[derive(Clone, Copy, PartialEq, Eq, PartialOrd, Ord, Hash, Debug)]
pub enum Side {
    /// Bids, which buy at their price or a lower one. The highest is the best.
    Buy,
    /// Asks, which sell at their price or a higher one. The lowest is the best.
    Sell,
}

impl Side {
    /// Returns whether an order of this side meets the limit of one of the other side: its price is the limit, or better for that one.
    pub fn meets(self, price: u64, limit: u64) -> bool
        ensures { result ≡ meets self price limit }
    {
        match self {
            Side::Buy => limit <= price,
            Side::Sell => price <= limit,
        }
    }
}

/// Returns the rank of a price on a side, where the lesser trades first, and also the price of a rank.
pub(crate) fn ranked(side: Side, number: u64) -> u64
    ensures { result ≡ ranked side number }
{
    match side {
        Side::Buy => u64::MAX - number,
        Side::Sell => number,
    }
}
