//! `OrderBook`: bids and asks.

ghost use Rattle.std.specs.Prelude.{◌≡◌, ◌≢◌, ◌↔◌, ◌+◌, ◌-◌, ◌≤◌, ◌<◌, ◌++◌, ◌⊎◌, ℕ, true, false, Ok, Err, Some, None, length, vec_capacity};
ghost use Rattle.std.specs.Prelude.{IfOk, OnOk, OnErr, OnSome, IfSome, IfNone, IsSomeAnd};
ghost use Rattle.std.specs.Option.{option_map};
ghost use Rattle.sorted_arena.specs.PlainArena.{capacity_for};
ghost use Rattle.order_book.specs.Queue.{most_entries, first_of, first_levels, resting, traded, within, reduced_order, total, volume, HasRoomFor};
ghost use Rattle.order_book.specs.declared.side.Side.TheVariants.{Buy, Sell};
ghost use Rattle.order_book.specs.Book.{opposite, queue, empty_queue, named, limit_of, can_rest, only_rests, is_whole, without, with_less, replacement};
ghost use Rattle.order_book.specs.Names.{IsStep, ChangesOrder, StepsOrRefuses};
ghost use Rattle.order_book.specs.Book.{trades_for, trades_of, untraded, rest_of, AreWithin, IsBook, IsFull, IsUncrossed, IsUntraded, LacksRoom, Places};

mod auction;
mod cancel_where;
mod compare;
mod debug;
mod feed;
mod look;
mod snapshot;
mod try_clone;

use crate::error::{PlacingError, ReplacingError};
use crate::level::Depth;
use crate::new_order::{NewOrder, OrderKind};
use crate::order::{Order, OrderId, Trade};
use crate::orders::Orders;
use crate::queue::OrderQueue;
use crate::settling::{settle, settle_anew};
use crate::side::Side;
use sorted_arena::ReallocationError;
use std::alloc::{Allocator, Global};
use std::marker::Model;

/// A price-time order book, whose orders carry what their owners keep with them: a number, an account, or whatever is `Copy`.
///
/// An incoming order trades with the other side as far as its limit allows: the best price first, at equal prices the oldest order first,
/// at the price of the resting order. What is left of it rests on its own side under an id, if its kind rests.
///
/// A new book is uncrossed: no bid is at or above an ask. Every call keeps it so, except for [`add`](Self::add), which puts an order at
/// rest without trading.
///
/// In contracts a book is two queues, bids and asks, each a list of orders in the order in which they trade. [`count`](Self::count)
/// promises what holds of every book, and `T` is the type of the orders' tags. In the docs n is the number of orders on a side, m that of its price levels, and
/// k that of the orders that are filled. In the examples of the calls `book` is an empty book, as `OrderBook::new(rt.alloc())` makes it.
#[derive(Drop)]
pub struct OrderBook<T: Copy = u64, A: Allocator = Global> {
    bids: OrderQueue<T, A>,
    asks: OrderQueue<T, A>,
}

impl<T: Copy, A: Allocator> Model for OrderBook<T, A> {
    ghost use Rattle.order_book.specs.Book.{Book};

    ghost Value = { Book T };

    ghost use Rattle.order_book.specs.Layout.{IsPairOfQueues};

    ghost view = { λ b. record { bids = b.bids; asks = b.asks } };

    ghost invariant = { λ b. IsPairOfQueues b.bids b.asks };
}

impl<T: Copy, A: Allocator> OrderBook<T, A> {
    /// Creates a book without orders. It takes no memory until an order rests.
    pub fn new(alloc: A) -> Self
    where
        A: Copy,
        ensures value { result ≡ record { bids = empty_queue Buy; asks = empty_queue Sell } }
        ensures uncrossed { IsUncrossed result }
    {
        OrderBook {
            bids: OrderQueue::new(Side::Buy, alloc),
            asks: OrderQueue::new(Side::Sell, alloc),
        }
    }

    // The orders of a side.
    fn side(&self, side: Side) -> &OrderQueue<T, A>
        ensures { result.now ≡ queue self.now side }
    {
        match side {
            Side::Buy => &self.bids,
            Side::Sell => &self.asks,
        }
    }

    /// Returns the number of orders on a side.
    pub fn count(&self, side: Side) -> usize
        ensures value { result ≡ length (queue self.now side).orders }
        ensures lawful { IsBook self.now }
    {
        let (bids, asks) = (self.bids.len(), self.asks.len());
        match side {
            Side::Buy => bids,
            Side::Sell => asks,
        }
    }

    /// Returns how many orders a side holds without growing.
    pub fn capacity(&self, side: Side) -> usize
        ensures { result ≡ (queue self.now side).capacity }
    {
        self.side(side).capacity()
    }

    /// Makes room for `additional` more orders on a side, which then aren't refused by it. O(capacity) if the side grows, else O(1).
    ///
    /// ```
    /// let mut trades = Vec::new(rt.alloc());
    /// book.reserve(Side::Sell, 1)?;
    /// let room = book.capacity(Side::Sell);
    /// book.place(NewOrder::limit(Side::Sell, 101, 10), &mut trades)?;
    /// assert_eq!(rt; book.capacity(Side::Sell), room);
    /// ```
    ///
    /// # Errors
    ///
    /// The book is unchanged.
    /// - `BeyondMaxCapacity`: there would be more than 4,294,967,294 orders on the side.
    /// - `AllocError`: growing failed.
    pub fn reserve(&mut self, side: Side, additional: usize) -> Result<(), ReallocationError>
        ensures bids { self.new.bids.orders ≡ self.old.bids.orders }
        ensures asks { self.new.asks.orders ≡ self.old.asks.orders }
        ensures capacity { OnOk result ((queue self.new side).capacity ≡ capacity_for most_entries
            (queue self.old side).capacity (length (queue self.old side).orders + additional)) }
        ensures generation { (queue self.new side).generation
            ≡ (queue self.old side).generation }
        ensures room { OnOk result (HasRoomFor additional (queue self.new side)) }
        ensures other_side { queue self.new (opposite side) ≡ queue self.old (opposite side) }
        ensures full { (result ≡ Err ReallocationError.BeyondMaxCapacity)
            ↔ (most_entries < length (queue self.old side).orders + additional) }
        ensures memory { result ≡ Err ReallocationError.AllocError
            → (queue self.old side).capacity < length (queue self.old side).orders + additional }
        ensures step { IsStep self.old self.new }
        ensures uncrossed { IsUncrossed self.old → IsUncrossed self.new }
        ensures err { OnErr result (self.new ≡ self.old) }
    {
        match side {
            Side::Buy => self.bids.reserve(additional),
            Side::Sell => self.asks.reserve(additional),
        }
    }

    /// Returns the bid that trades first, the oldest at the highest price, in O(1).
    pub fn best_bid(&self) -> Option<Order<T>>
        ensures { result ≡ first_of self.now.bids.orders }
    {
        self.bids.first()
    }

    /// Returns the ask that trades first, the oldest at the lowest price, in O(1).
    ///
    /// ```
    /// let mut trades = Vec::new(rt.alloc());
    /// book.place(NewOrder::limit(Side::Sell, 103, 20), &mut trades)?;
    /// book.place(NewOrder::limit(Side::Sell, 101, 10), &mut trades)?;
    /// assert_eq!(rt; book.best_ask().map(|ask| ask.price), Some(101));
    /// ```
    #[tactic(auto, using(crate::proofs::Apart::first_above))]
    pub fn best_ask(&self) -> Option<Order<T>>
        ensures value { result ≡ first_of self.now.asks.orders }
        ensures above_bids { IsUncrossed self.now → IfSome result
            (λ ask. IfSome (first_of self.now.bids.orders) (λ bid. bid.price < ask.price)) }
    {
        self.asks.first()
    }

    /// Returns an iterator over the orders of a side, first the one that trades first. Each step is O(1).
    ///
    /// ```
    /// let mut trades = Vec::new(rt.alloc());
    /// book.place(NewOrder::limit(Side::Sell, 101, 10), &mut trades)?;
    /// book.place(NewOrder::limit(Side::Sell, 103, 20), &mut trades)?;
    /// let mut prices = Vec::new(rt.alloc());
    /// for order in book.iter(Side::Sell) {
    ///     prices.push(order.price)?;
    /// }
    /// assert_eq!(rt; prices.as_slice(), [101, 103].as_slice());
    /// ```
    pub fn iter(&self, side: Side) -> Orders<'_, T, A>
        ensures { result ≡ (queue self.now side).orders }
    {
        self.side(side).iter()
    }

    /// Returns an iterator over the first `levels` price levels of a side, the best price first: fewer if there are fewer.
    ///
    /// Each step is O(1).
    ///
    /// ```
    /// let mut trades = Vec::new(rt.alloc());
    /// book.place(NewOrder::limit(Side::Sell, 101, 10), &mut trades)?;
    /// book.place(NewOrder::limit(Side::Sell, 101, 5), &mut trades)?;
    /// let level = book.depth(Side::Sell, 5).next();
    /// assert_eq!(rt; level.map(|level| (level.price, level.quantity, level.count)), Some((101, 15, 2)));
    /// ```
    pub fn depth(&self, side: Side, levels: usize) -> Depth<'_, A>
        ensures { result ≡ first_levels levels (queue self.now side).orders }
    {
        self.side(side).depth(levels)
    }

    /// Returns a resting order, in O(1). `None` if `id` names no order.
    pub fn get(&self, id: OrderId) -> Option<Order<T>>
        ensures { result ≡ named self.now id }
    {
        self.side(id.side()).get(id.pointer())
    }

    /// Returns how much of an order of a side with this limit would trade at once. Nothing changes. O(1) for each price
    /// level that it would trade with.
    ///
    /// ```
    /// let mut trades = Vec::new(rt.alloc());
    /// book.place(NewOrder::limit(Side::Sell, 101, 10), &mut trades)?;
    /// book.place(NewOrder::limit(Side::Sell, 103, 20), &mut trades)?;
    /// assert_eq!(rt; book.offered(Side::Buy, 102, 15), 10);
    /// assert_eq!(rt; book.offered(Side::Buy, 103, 15), 15);
    /// ```
    pub fn offered(&self, side: Side, limit: u64, quantity: u64) -> u64
        ensures { result ≡ traded (queue self.now (opposite side)) limit quantity }
    {
        match side {
            Side::Buy => self.asks.offered(limit, quantity),
            Side::Sell => self.bids.offered(limit, quantity),
        }
    }

    /// Returns how much the other side offers an order of a side with this limit in all. O(1) for each price level within
    /// the limit.
    ///
    /// ```
    /// let mut trades = Vec::new(rt.alloc());
    /// book.place(NewOrder::limit(Side::Sell, 101, 10), &mut trades)?;
    /// book.place(NewOrder::limit(Side::Sell, 103, 20), &mut trades)?;
    /// assert_eq!(rt; book.volume_within(Side::Buy, 102), 10);
    /// assert_eq!(rt; book.volume_within(Side::Buy, 103), 30);
    /// ```
    pub fn volume_within(&self, side: Side, limit: u64) -> u128
        ensures { result ≡ within (opposite side) limit (queue self.now (opposite side)).orders }
    {
        match side {
            Side::Buy => self.asks.volume_within(limit),
            Side::Sell => self.bids.volume_within(limit),
        }
    }

    /// Removes an order and returns it. O(1), plus O(log m) if no other order of its side is at its price.
    ///
    /// If `id` names no order, returns `None` and nothing changes.
    ///
    /// ```
    /// let mut trades = Vec::new(rt.alloc());
    /// let ask = book.place(NewOrder::limit(Side::Sell, 101, 10), &mut trades)?;
    /// let cancelled = ask.and_then(|ask| book.cancel(ask));
    /// assert_eq!(rt; cancelled.map(|order| order.quantity), Some(10));
    /// assert_eq!(rt; book.best_ask(), None);
    /// ```
    pub fn cancel(&mut self, id: OrderId) -> Option<Order<T>>
        ensures value { result ≡ named self.old id }
        ensures changes { ChangesOrder self.old id None result self.new }
        ensures count { OnSome result (length (queue self.old id.side).orders
            ≡ length (queue self.new id.side).orders + 1) }
        ensures gone { OnSome result (self.new ≡ without self.old id) }
        ensures uncrossed { IsUncrossed self.old → IsUncrossed self.new }
    {
        match id.side() {
            Side::Buy => self.bids.remove(id.pointer()),
            Side::Sell => self.asks.remove(id.pointer()),
        }
    }

    /// Takes `quantity` units off an order, at most all of it, and returns how much of it is left.
    ///
    /// The order keeps its id and its place in the queue. If nothing of it is left, it leaves. If `id` names no order, returns `None` and
    /// nothing changes. O(1), plus O(log m) if the order leaves and no other is at its price.
    ///
    /// ```
    /// let mut trades = Vec::new(rt.alloc());
    /// let ask = book.place(NewOrder::limit(Side::Sell, 101, 10), &mut trades)?;
    /// if let Some(ask) = ask {
    ///     assert_eq!(rt; book.reduce(ask, 3), Some(7));
    ///     assert_eq!(rt; book.get(ask).map(|order| order.quantity), Some(7));
    /// }
    /// ```
    pub fn reduce(&mut self, id: OrderId, quantity: u64) -> Option<u64>
        ensures value { result ≡ option_map (λ x. x.quantity - quantity) (named self.old id) }
        ensures changes { ChangesOrder self.old id
            (reduced_order (named self.old id) quantity) result self.new }
        ensures after { IfSome result (λ left. self.new ≡ with_less self.old id left) }
        ensures uncrossed { IsUncrossed self.old → IsUncrossed self.new }
    {
        match id.side() {
            Side::Buy => self.bids.reduce(id.pointer(), quantity),
            Side::Sell => self.asks.reduce(id.pointer(), quantity),
        }
    }

    // Why an order's kind doesn't let it in, if so.
    fn refusal(&self, order: NewOrder<T>) -> Option<PlacingError>
        ensures nothing { (result ≡ Some PlacingError.NoQuantity) ↔ (order.quantity ≡ 0) }
        ensures trade { (result ≡ Some PlacingError.WouldTrade) ↔ ((order.quantity ≢ 0)
            × (only_rests order.kind ≡ true) × (0 < trades_for self.now order)) }
        ensures part { (result ≡ Some PlacingError.WouldNotFill) ↔ ((order.quantity ≢ 0)
            × (is_whole order.kind ≡ true) × (0 < untraded self.now order)) }
        ensures quiet { IfNone result
            (only_rests order.kind ≡ true → trades_for self.now order ≡ 0) }
        ensures whole { IfNone result
            (is_whole order.kind ≡ true → untraded self.now order ≡ 0) }
        ensures full { result ≢ Some PlacingError.BeyondMaxCapacity }
        ensures memory { result ≢ Some PlacingError.AllocError }
    {
        if order.quantity == 0 {
            return Some(PlacingError::NoQuantity);
        }
        if order.kind.only_rests() {
            let offered = self.offered(order.side, order.kind.limit(order.side), 1);
            if offered > 0 {
                Some(PlacingError::WouldTrade)
            } else {
                None
            }
        } else if order.kind.is_whole() {
            let offered = self.offered(order.side, order.kind.limit(order.side), order.quantity);
            if offered < order.quantity {
                Some(PlacingError::WouldNotFill)
            } else {
                None
            }
        } else {
            None
        }
    }

    /// Places an order: it trades as far as its limit and its kind allow, and the rest of it rests if its kind rests. Appends its trades to
    /// the list and returns the id of what rests, `None` if nothing does.
    ///
    /// ```
    /// let mut trades = Vec::new(rt.alloc());
    /// book.place(NewOrder::limit(Side::Sell, 101, 10), &mut trades)?;
    /// let rest = book.place(NewOrder::limit(Side::Buy, 102, 4), &mut trades)?;
    /// assert_eq!(rt; rest, None);
    /// assert_eq!(rt; trades.len(), 1);
    /// assert_eq!(rt; book.best_ask().map(|ask| ask.quantity), Some(6));
    /// ```
    ///
    /// # Errors
    ///
    /// The book and the list are unchanged. The first that holds is returned.
    /// - `NoQuantity`: the quantity is 0.
    /// - `WouldTrade`: a post-only order would trade.
    /// - `WouldNotFill`: a fill-or-kill order would not trade as a whole.
    /// - `BeyondMaxCapacity`: something would rest, and its side has 4,294,967,294 orders.
    /// - `AllocError`: memory is refused to the list of trades, or to the order's side, which grows only if something would rest and it
    ///   is full.
    ///
    /// # Complexity
    ///
    /// O(k), and O(log m) for each price level that is emptied and for the rest; plus O(n) when its side grows (amortized O(1)).
    pub fn place<B: Allocator>(
        &mut self,
        order: NewOrder<T>,
        trades: &mut Vec<Trade<T>, B>,
    ) -> Result<Option<OrderId>, PlacingError>
        ensures placed { IfOk result (λ id. Places self.old order id self.new) }
        ensures trades { OnOk result
            (trades.new.items ≡ trades.old.items ++ trades_of self.old order) }
        ensures named { IfOk result (λ id. IfSome id (λ i. named self.new i
            ≡ Some (resting order.side i.pointer (limit_of order.side order.kind)
            (rest_of self.old order) order.tag))) }
        ensures bought { OnOk result (volume (trades_of self.old order)
            + untraded self.old order ≡ order.quantity) }
        ensures sold { OnOk result (total (queue self.new (opposite order.side)).orders
            + volume (trades_of self.old order)
            ≡ total (queue self.old (opposite order.side)).orders) }
        ensures limited { OnOk result (AreWithin (opposite order.side)
            (limit_of order.side order.kind) (trades_of self.old order)) }
        ensures others { IfOk result (λ id. (other : _) → Some other ≢ id
            → IsUntraded other (trades_of self.old order)
            → named self.new other ≡ named self.old other) }
        ensures at_once { can_rest order.kind ≡ false → IfOk result (λ id. id ≡ None) }
        ensures posted { only_rests order.kind ≡ true → OnOk result
            (trades.new.items ≡ trades.old.items) }
        ensures whole { is_whole order.kind ≡ true → OnOk result
            (volume (trades_of self.old order) ≡ order.quantity) }
        ensures room { OnOk result ((n : ℕ) → HasRoomFor (n + 1) (queue self.old order.side)
            → HasRoomFor n (queue self.new order.side)) }
        ensures other_room { OnOk result ((n : ℕ)
            → HasRoomFor n (queue self.old (opposite order.side))
            → HasRoomFor n (queue self.new (opposite order.side))) }
        ensures kept_room { vec_capacity trades.old ≤ vec_capacity trades.new }
        ensures nothing { (result ≡ Err PlacingError.NoQuantity) ↔ (order.quantity ≡ 0) }
        ensures would_trade { (result ≡ Err PlacingError.WouldTrade)
            ↔ ((order.quantity ≢ 0) × (only_rests order.kind ≡ true)
            × (0 < trades_for self.old order)) }
        ensures would_not_fill { (result ≡ Err PlacingError.WouldNotFill)
            ↔ ((order.quantity ≢ 0) × (is_whole order.kind ≡ true)
            × (0 < untraded self.old order)) }
        ensures full { (result ≡ Err PlacingError.BeyondMaxCapacity)
            ↔ ((0 < rest_of self.old order)
            × (length (queue self.old order.side).orders ≡ most_entries)
            × (only_rests order.kind ≡ true → trades_for self.old order ≡ 0)) }
        ensures memory { result ≡ Err PlacingError.AllocError
            → LacksRoom (vec_capacity trades.old) (length trades.old.items)
            (trades_of self.old order)
            ⊎ ((0 < rest_of self.old order) × IsFull (queue self.old order.side)
            × (length (queue self.old order.side).orders ≢ most_entries)) }
        ensures steps { StepsOrRefuses self.old trades.old.items result
            self.new trades.new.items }
        ensures uncrossed { IsUncrossed self.old → IsUncrossed self.new }
    {
        if let Some(refusal) = self.refusal(order) {
            return Err(refusal);
        }
        // For the prover: what holds of every book.
        let _ = self.count(order.side);
        let settled = match order.side {
            Side::Buy => settle(&mut self.bids, &mut self.asks, order, trades),
            Side::Sell => settle(&mut self.asks, &mut self.bids, order, trades),
        };
        match settled {
            Ok(id) => Ok(id),
            Err(ReallocationError::BeyondMaxCapacity) => Err(PlacingError::BeyondMaxCapacity),
            Err(ReallocationError::AllocError) => Err(PlacingError::AllocError),
        }
    }

    /// Removes an order, and places one of its side with its tag, of this kind and quantity. That counts as new, also at the same price, and
    /// gets a new id. Returns what [`place`](Self::place) returns, at the same cost.
    ///
    /// ```
    /// let mut trades = Vec::new(rt.alloc());
    /// let ask = book.place(NewOrder::limit(Side::Sell, 101, 10), &mut trades)?;
    /// if let Some(ask) = ask {
    ///     book.replace(ask, OrderKind::Limit(103), 5, &mut trades)?;
    /// }
    /// assert_eq!(rt; book.best_ask().map(|ask| (ask.price, ask.quantity)), Some((103, 5)));
    /// ```
    ///
    /// # Errors
    ///
    /// The book and the list are unchanged.
    /// - `NoQuantity`: the quantity is 0.
    /// - `NoOrder`: the id names no order.
    /// - `WouldTrade`: the new order is post-only, and would trade.
    /// - `WouldNotFill`: the new order is fill-or-kill, and would not trade as a whole.
    /// - `AllocError`: memory is refused to the list of trades.
    pub fn replace<B: Allocator>(
        &mut self,
        id: OrderId,
        kind: OrderKind,
        quantity: u64,
        trades: &mut Vec<Trade<T>, B>,
    ) -> Result<Option<OrderId>, ReplacingError>
        ensures placed { IfSome (named self.old id) (λ x. IfOk result
            (λ new. Places (without self.old id) (replacement id x.tag kind quantity) new self.new)) }
        ensures trades { IfSome (named self.old id) (λ x. OnOk result (trades.new.items
            ≡ trades.old.items
            ++ trades_of (without self.old id) (replacement id x.tag kind quantity))) }
        ensures named { IfSome (named self.old id) (λ x. IfOk result (λ new. IfSome new
            (λ i. named self.new i ≡ Some (resting id.side i.pointer (limit_of id.side kind)
            (rest_of (without self.old id) (replacement id x.tag kind quantity)) x.tag)))) }
        ensures bought { IfSome (named self.old id) (λ x. OnOk result (volume (trades_of
            (without self.old id) (replacement id x.tag kind quantity)) + untraded
            (without self.old id) (replacement id x.tag kind quantity) ≡ quantity)) }
        ensures sold { IfSome (named self.old id) (λ x. OnOk result
            (total (queue self.new (opposite id.side)).orders + volume (trades_of
            (without self.old id) (replacement id x.tag kind quantity))
            ≡ total (queue self.old (opposite id.side)).orders)) }
        ensures limited { IfSome (named self.old id) (λ x. OnOk result
            (AreWithin (opposite id.side) (limit_of id.side kind)
            (trades_of (without self.old id) (replacement id x.tag kind quantity)))) }
        ensures others { IfSome (named self.old id) (λ x. IfOk result (λ new. (other : _)
            → Some other ≢ new → other ≢ id → IsUntraded other (trades_of (without self.old id)
            (replacement id x.tag kind quantity)) → named self.new other ≡ named self.old other)) }
        ensures at_once { can_rest kind ≡ false → IfOk result (λ new. new ≡ None) }
        ensures posted { only_rests kind ≡ true → OnOk result
            (trades.new.items ≡ trades.old.items) }
        ensures whole { IfSome (named self.old id) (λ x. is_whole kind ≡ true → OnOk result
            (volume (trades_of (without self.old id) (replacement id x.tag kind quantity))
            ≡ quantity)) }
        ensures room { OnOk result ((n : ℕ) → HasRoomFor n (queue self.old id.side)
            → HasRoomFor n (queue self.new id.side)) }
        ensures other_room { OnOk result ((n : ℕ)
            → HasRoomFor n (queue self.old (opposite id.side))
            → HasRoomFor n (queue self.new (opposite id.side))) }
        ensures kept_room { vec_capacity trades.old ≤ vec_capacity trades.new }
        ensures nothing { (result ≡ Err ReplacingError.NoQuantity) ↔ (quantity ≡ 0) }
        ensures unknown { (result ≡ Err ReplacingError.NoOrder)
            ↔ ((quantity ≢ 0) × (named self.old id ≡ None)) }
        ensures would_trade { (result ≡ Err ReplacingError.WouldTrade)
            ↔ ((quantity ≢ 0) × (only_rests kind ≡ true) × IsSomeAnd (named self.old id)
            (λ x. 0 < trades_for self.old (replacement id x.tag kind quantity))) }
        ensures would_not_fill { (result ≡ Err ReplacingError.WouldNotFill)
            ↔ ((quantity ≢ 0) × (is_whole kind ≡ true) × IsSomeAnd (named self.old id)
            (λ x. 0 < untraded self.old (replacement id x.tag kind quantity))) }
        ensures memory { IfSome (named self.old id) (λ x. result ≡ Err ReplacingError.AllocError
            → LacksRoom (vec_capacity trades.old) (length trades.old.items)
            (trades_of (without self.old id) (replacement id x.tag kind quantity))) }
        ensures steps { StepsOrRefuses self.old trades.old.items result
            self.new trades.new.items }
        ensures uncrossed { IsUncrossed self.old → IsUncrossed self.new }
    {
        if quantity == 0 {
            return Err(ReplacingError::NoQuantity);
        }
        let Some(old) = self.get(id) else {
            return Err(ReplacingError::NoOrder);
        };
        let order = NewOrder {
            side: id.side(),
            kind,
            quantity,
            tag: old.tag,
        };
        if let Some(refusal) = self.refusal(order) {
            return Err(refused_anew(refusal));
        }
        // For the prover: what holds of every book.
        let _ = self.count(id.side());
        let pointer = id.pointer();
        let settled = match id.side() {
            Side::Buy => settle_anew(&mut self.bids, &mut self.asks, pointer, order, trades),
            Side::Sell => settle_anew(&mut self.asks, &mut self.bids, pointer, order, trades),
        };
        match settled {
            Ok(new) => Ok(new),
            Err(_) => Err(ReplacingError::AllocError),
        }
    }
}

// Why an order is not replaced by one that is refused for its kind.
fn refused_anew(refusal: PlacingError) -> ReplacingError
    ensures nothing { (result ≡ ReplacingError.NoQuantity) ↔ (refusal ≡ PlacingError.NoQuantity) }
    ensures trade { (result ≡ ReplacingError.WouldTrade) ↔ (refusal ≡ PlacingError.WouldTrade) }
    ensures part { (result ≡ ReplacingError.WouldNotFill)
        ↔ (refusal ≡ PlacingError.WouldNotFill) }
    ensures order { result ≢ ReplacingError.NoOrder }
    ensures memory { result ≡ ReplacingError.AllocError
        → (refusal ≡ PlacingError.BeyondMaxCapacity) ⊎ (refusal ≡ PlacingError.AllocError) }
{
    match refusal {
        PlacingError::NoQuantity => ReplacingError::NoQuantity,
        PlacingError::WouldTrade => ReplacingError::WouldTrade,
        PlacingError::WouldNotFill => ReplacingError::WouldNotFill,
        PlacingError::BeyondMaxCapacity | PlacingError::AllocError => ReplacingError::AllocError,
    }
}
