//! `NewOrder`: an order as it comes in.

ghost use Rattle.std.specs.Prelude.{◌≡◌};
ghost use Rattle.order_book.specs.Book.{limit_of, can_rest, is_whole, only_rests};

use crate::side::Side;

/// What an order does with its quantity, and up to which price.
#[derive(Clone, Copy, PartialEq, Eq, Debug)]
pub enum OrderKind {
    /// Trades up to this price; the rest of it rests.
    Limit(u64),
    /// Rests at this price, and never trades when it comes in: it is refused if it would.
    PostOnly(u64),
    /// Trades up to this price at once; the rest is dropped.
    ImmediateOrCancel(u64),
    /// Trades as a whole up to this price at once, or is refused.
    FillOrKill(u64),
    /// Trades at any price at once; the rest is dropped.
    Market,
}

impl OrderKind {
    /// Returns the price up to which an order of this side and kind trades. A market order takes any price.
    pub fn limit(self, side: Side) -> u64
        ensures { result ≡ limit_of side self }
    {
        match self {
            OrderKind::Limit(price) => price,
            OrderKind::PostOnly(price) => price,
            OrderKind::ImmediateOrCancel(price) => price,
            OrderKind::FillOrKill(price) => price,
            OrderKind::Market => match side {
                Side::Buy => u64::MAX,
                Side::Sell => 0,
            },
        }
    }

    /// Returns whether what such an order doesn't trade comes to rest.
    pub fn can_rest(self) -> bool
        ensures { result ≡ can_rest self }
    {
        matches!(self, OrderKind::Limit(_) | OrderKind::PostOnly(_))
    }

    /// Returns whether such an order may only rest.
    pub fn only_rests(self) -> bool
        ensures { result ≡ only_rests self }
    {
        matches!(self, OrderKind::PostOnly(_))
    }

    /// Returns whether such an order trades as a whole or not at all.
    pub fn is_whole(self) -> bool
        ensures { result ≡ is_whole self }
    {
        matches!(self, OrderKind::FillOrKill(_))
    }
}

/// An incoming order.
#[derive(Clone, Copy, PartialEq, Eq, Debug)]
pub struct NewOrder<T = u64> {
    /// Its side.
    pub side: Side,
    /// What it does with its quantity.
    pub kind: OrderKind,
    /// How much it wants to trade.
    pub quantity: u64,
    /// What its owner keeps with it: its resting rest and the trades with that show it.
    pub tag: T,
}

impl NewOrder {
    /// Makes a limit order with tag 0. [`with_tag`](Self::with_tag) gives it another.
    pub fn limit(side: Side, price: u64, quantity: u64) -> Self
        ensures { result ≡ record {
          side = side;
          kind = OrderKind.Limit price;
          quantity = quantity;
          tag = 0;
        } }
    {
        NewOrder {
            side,
            kind: OrderKind::Limit(price),
            quantity,
            tag: 0,
        }
    }

    /// Makes a market order with tag 0.
    pub fn market(side: Side, quantity: u64) -> Self
        ensures { result ≡ record {
          side = side;
          kind = OrderKind.Market;
          quantity = quantity;
          tag = 0;
        } }
    {
        NewOrder {
            side,
            kind: OrderKind::Market,
            quantity,
            tag: 0,
        }
    }

    /// Returns the order with this tag, of whatever type, in place of its own.
    ///
    /// ```
    /// let mut trades = Vec::new(rt.alloc());
    /// book.place(NewOrder::limit(Side::Sell, 101, 10).with_tag(7), &mut trades)?;
    /// book.place(NewOrder::limit(Side::Buy, 101, 4).with_tag(8), &mut trades)?;
    /// assert_eq!(rt; trades.last().map(|trade| (trade.quantity, trade.tag)), Some((4, 7)));
    /// ```
    pub fn with_tag<T>(self, tag: T) -> NewOrder<T>
        ensures { result ≡ record {
          side = self.side;
          kind = self.kind;
          quantity = self.quantity;
          tag = tag;
        } }
    {
        NewOrder {
            side: self.side,
            kind: self.kind,
            quantity: self.quantity,
            tag,
        }
    }
}
