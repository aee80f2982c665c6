//! Auctions: how a book that is crossed trades at one price.

ghost use Rattle.std.specs.Prelude.{◌≡◌, ◌↔◌, ◌≤◌, Ok, None, length, vec_capacity, OnOk, IfOk, OnErr, IfSome, IfNone};
ghost use Rattle.order_book.specs.Book.{IsUncrossed};
ghost use Rattle.order_book.specs.Names.{StepsOrRefuses};
ghost use Rattle.order_book.specs.Auction.{Auctions, IsBestAuction, LacksRoomForAuction};

use super::OrderBook;
use crate::auction::{Auction, best_auction};
use crate::order::Trade;
use crate::side::Side;
use std::alloc::{AllocError, Allocator};

impl<T: Copy, A: Allocator> OrderBook<T, A> {
    /// Returns what [`uncross`](Self::uncross) would come to: the price at which most would trade, how much, and the surplus. `None` if the
    /// book is uncrossed, so that nothing would trade. O(m), or O(1) if the book is uncrossed.
    ///
    /// ```
    /// book.add(Side::Buy, 102, 10, 7)?;
    /// book.add(Side::Sell, 101, 4, 8)?;
    /// let auction = book.auction();
    /// assert_eq!(rt; auction.map(|auction| (auction.price, auction.quantity, auction.surplus)), Some((101, 4, 6)));
    /// ```
    pub fn auction(&self) -> Option<Auction>
        ensures none { (result ≡ None) ↔ IsUncrossed self.now }
        ensures best { IfSome result (λ auction. IsBestAuction self.now auction) }
    {
        // For the prover: what holds of every book.
        let _ = self.count(Side::Buy);
        if !self.is_crossed() {
            return None;
        }
        let of_bids = best_auction(&self.bids, &self.asks, Auction::NONE);
        Some(best_auction(&self.asks, &self.bids, of_bids))
    }

    /// Trades all that can trade at one price, as an opening auction does: the price of an order at which most trades. Of several such prices
    /// it is the one of the least surplus, and of several such ones the lowest.
    ///
    /// On each side the orders trade from the first one on, as far as the quantity goes: the best price first, at equal prices the oldest
    /// order first. Appends a trade for each order that trades, those of the bids before those of the asks, and returns what the auction came
    /// to. The book is uncrossed then. `None` if it was uncrossed, and nothing changes.
    ///
    /// ```
    /// let mut trades = Vec::new(rt.alloc());
    /// book.add(Side::Buy, 102, 10, 7)?;
    /// book.add(Side::Sell, 101, 4, 8)?;
    /// let auction = book.uncross(&mut trades)?;
    /// assert_eq!(rt; auction.map(|auction| (auction.price, auction.quantity)), Some((101, 4)));
    /// assert_eq!(rt; trades.len(), 2);
    /// assert_eq!(rt; book.best_bid().map(|bid| bid.quantity), Some(6));
    /// ```
    ///
    /// # Errors
    ///
    /// `AllocError`: memory is refused to the list of trades. The book and the list are unchanged.
    ///
    /// # Complexity
    ///
    /// O(m + k), and O(log m) for each price level that is emptied.
    pub fn uncross<B: Allocator>(
        &mut self,
        trades: &mut Vec<Trade<T>, B>,
    ) -> Result<Option<Auction>, AllocError>
        ensures none { (result ≡ Ok None) ↔ IsUncrossed self.old }
        ensures auction { IfOk result (λ found. IfSome found
            (λ a. Auctions self.old trades.old.items a self.new trades.new.items)) }
        ensures quiet { IfOk result (λ found. IfNone found
            ((self.new ≡ self.old) × (trades.new.items ≡ trades.old.items))) }
        ensures uncrossed { OnOk result (IsUncrossed self.new) }
        ensures memory { OnErr result (LacksRoomForAuction self.old (vec_capacity trades.old)
            (length trades.old.items)) }
        ensures kept_room { vec_capacity trades.old ≤ vec_capacity trades.new }
        ensures steps { StepsOrRefuses self.old trades.old.items result
            self.new trades.new.items }
    {
        // For the prover: what holds of every book.
        let _ = self.count(Side::Buy);
        let Some(auction) = self.auction() else {
            return Ok(None);
        };
        let before = trades.len();
        self.bids.fill(auction.price, auction.quantity, trades)?;
        if let Err(refused) = self.asks.fill(auction.price, auction.quantity, trades) {
            trades.truncate(before);
            return Err(refused);
        }
        self.bids.take_volume(auction.quantity);
        self.asks.take_volume(auction.quantity);
        Ok(Some(auction))
    }
}
