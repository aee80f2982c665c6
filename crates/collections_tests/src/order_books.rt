//! Order books: a trading day, every sequence of a few orders, and of a few reports of a feed; auctions, snapshots, owners, refused memory, and
//! the texts of errors.
mod auctions;
mod day;
mod error;
mod feed;
mod lists;
mod owners;
mod refused;
mod sequences;
mod snapshots;
