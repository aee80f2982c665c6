//! `Auction`: what trades at one price, and at which price most does.

ghost use Rattle.std.specs.Prelude.{◌≡◌, ◌-◌, ◌<◌, ◌⊎◌, true, false, min, max};
ghost use Rattle.std.specs.List.{AllByRecursion};
ghost use Rattle.order_book.specs.Queue.{IsSound, total, orders_at};
ghost use Rattle.order_book.specs.Book.{opposite};
ghost use Rattle.order_book.specs.Auction.{auction_at, IsNoBetter, NoneIsBetter};
ghost use Rattle.order_book.specs.AuctionSteps.{left_of, left_within, quantity_of, IsOfOrder};

use crate::level::{Level, WorstFirst};
use crate::queue::OrderQueue;
use crate::side::Side;
use std::alloc::Allocator;

/// What an auction comes to: all of it trades at one price.
#[derive(Clone, Copy, PartialEq, Eq, Debug)]
pub struct Auction {
    /// The price of one unit.
    pub price: u64,
    /// How much trades, at least 1.
    pub quantity: u128,
    /// How much more one side offers at this price than the other.
    pub surplus: u128,
}

impl Auction {
    /// No auction: any in which something trades is better.
    pub(crate) const NONE: Auction = Auction {
        price: 0,
        quantity: 0,
        surplus: 0,
    };

    // The one at a price at which the two sides offer so much.
    fn new(price: u64, offered: u128, against: u128) -> Self
        ensures { result ≡ record {
          price = price;
          quantity = min offered against;
          surplus = max offered against - min offered against;
        } }
    {
        let quantity = offered.min(against);
        Auction {
            price,
            quantity,
            surplus: offered.max(against) - quantity,
        }
    }

    // Whether it is better than another one.
    fn is_better_than(self, other: Auction) -> bool
        ensures better { result ≡ true → IsNoBetter other self }
        ensures not { result ≡ false → IsNoBetter self other }
    {
        if self.quantity != other.quantity {
            return self.quantity > other.quantity;
        }
        if self.surplus != other.surplus {
            return self.surplus < other.surplus;
        }
        self.price < other.price
    }

    // The better one of two.
    fn better(self, other: Auction) -> Auction
        ensures first { IsNoBetter self result }
        ensures second { IsNoBetter other result }
        ensures either { (result ≡ self) ⊎ (result ≡ other) }
    {
        if other.is_better_than(self) {
            other
        } else {
            self
        }
    }
}

// Passes by the worst levels of a side as long as they don't meet a limit. The levels hold this quantity in all. Returns the worst one
// that is left, and how much those that are left hold.
fn pass_unmet<A: Allocator>(
    side: Side,
    limit: u64,
    worst: Option<Level>,
    better: &mut WorstFirst<'_, A>,
    quantity: u128,
) -> (Option<Level>, u128)
    requires { quantity ≡ quantity_of (left_of worst better.old) }
    ensures left { left_of result.0 better.new
        ≡ left_within side limit (left_of worst better.old) }
    ensures quantity { result.1 ≡ quantity_of (left_of result.0 better.new) }
{
    let mut worst = worst;
    let mut quantity = quantity;
    while let Some(level) = worst {
        if side.meets(level.price, limit) {
            return (worst, quantity);
        }
        quantity -= level.quantity;
        worst = better.next();
    }
    (worst, quantity)
}

/// Returns the best of an auction and those at the prices of one side's orders. O(m).
pub(crate) fn best_auction<T: Copy, A: Allocator>(
    own: &OrderQueue<T, A>,
    other: &OrderQueue<T, A>,
    known: Auction,
) -> Auction
    requires { other.now.side ≡ opposite own.now.side }
    ensures known { IsNoBetter known result }
    ensures own { NoneIsBetter own.now other.now result own.now.orders }
    ensures found { (result ≡ known) ⊎ IsOfOrder own.now other.now result }
{
    let mut best = known;
    let mut offered = 0;
    let mut against = other.volume();
    let mut better = other.levels_from_worst();
    let mut worst = better.next();
    for level in own.levels() {
        offered += level.quantity;
        let left = pass_unmet(other.side(), level.price, worst, &mut better, against);
        worst = left.0;
        against = left.1;
        best = best.better(Auction::new(level.price, offered, against));
    }
    best
}
