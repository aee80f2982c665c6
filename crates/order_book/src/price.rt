//! Prices below zero, as spreads and interest rates have them.

ghost use Rattle.order_book.specs.Price.{StandsFor};

// The price that stands for 0.
const ZERO: u64 = 9_223_372_036_854_775_808;

/// Returns the price that stands for a number, which may be below zero: the number and 2 to the 63rd.
///
/// Each price of a book stands for one number, and lower prices stand for lower numbers. So in a book whose prices are all made by this call,
/// bids and asks are those of the numbers, and [`price_to_signed`] tells them.
///
/// ```
/// book.add(Side::Buy, price_from_signed(-3), 10, 7)?;
/// book.add(Side::Sell, price_from_signed(2), 10, 8)?;
/// assert_eq!(rt; book.best_bid().map(|bid| price_to_signed(bid.price)), Some(-3));
/// assert!(rt; !book.is_crossed());
/// ```
pub fn price_from_signed(number: i64) -> u64
    ensures { StandsFor result number }
{
    ZERO.strict_add_signed(number)
}

/// Returns the number that a price stands for: the price less 2 to the 63rd. See [`price_from_signed`].
pub fn price_to_signed(price: u64) -> i64
    ensures { StandsFor price result }
{
    i64::MIN.strict_add_unsigned(price)
}
