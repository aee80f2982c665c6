//! Why an order is refused.

use thiserror::Error;

/// Why an order was not placed. The book is unchanged.
#[derive(Debug, Clone, Copy, PartialEq, Eq, Drop, Error)]
pub enum PlacingError {
    /// The order is for nothing: its quantity is 0.
    #[error("an order for nothing")]
    NoQuantity,
    /// It may only rest, and would trade at once.
    #[error("the order would trade")]
    WouldTrade,
    /// It is to trade as a whole at once, and can't.
    #[error("the order would not be filled")]
    WouldNotFill,
    /// Part of it would rest, and its side has 4,294,967,294 orders, as many as it can have.
    #[error("as many orders as there can be")]
    BeyondMaxCapacity,
    /// There is no memory for the order or its trades.
    #[error("out of memory")]
    AllocError,
}

/// Why an order was not added. The book is unchanged.
#[derive(Debug, Clone, Copy, PartialEq, Eq, Drop, Error)]
pub enum AddingError {
    /// The order is for nothing: its quantity is 0.
    #[error("an order for nothing")]
    NoQuantity,
    /// Its side has 4,294,967,294 orders, as many as it can have.
    #[error("as many orders as there can be")]
    BeyondMaxCapacity,
    /// There is no memory for the order.
    #[error("out of memory")]
    AllocError,
}

/// Why an order was not replaced. The book is unchanged.
#[derive(Debug, Clone, Copy, PartialEq, Eq, Drop, Error)]
pub enum ReplacingError {
    /// The order is for nothing: its quantity is 0.
    #[error("an order for nothing")]
    NoQuantity,
    /// The id names no order: it was filled or cancelled, or never existed.
    #[error("no such order")]
    NoOrder,
    /// The new order may only rest, and would trade at once.
    #[error("the order would trade")]
    WouldTrade,
    /// The new order is to trade as a whole at once, and can't.
    #[error("the order would not be filled")]
    WouldNotFill,
    /// There is no memory for the trades.
    #[error("out of memory")]
    AllocError,
}
