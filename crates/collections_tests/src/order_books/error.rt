//! The errors of orders, as printed.
use order_book::{AddingError, PlacingError, ReplacingError};
use std::alloc::Global;

/// Returns the texts of an error.
fn text_of_placing(alloc: Global, refusal: PlacingError) -> Option<String> {
    format!(in alloc; "{refusal}, {refusal:?}").ok()
}

fn text_of_adding(alloc: Global, refusal: AddingError) -> Option<String> {
    format!(in alloc; "{refusal}, {refusal:?}").ok()
}

fn text_of_replacing(alloc: Global, refusal: ReplacingError) -> Option<String> {
    format!(in alloc; "{refusal}, {refusal:?}").ok()
}

/// Returns whether there was memory for a text, and it is this one.
fn is_text(text: Option<String>, wanted: &str) -> bool {
    match text {
        Some(text) => text.as_str() == wanted,
        None => false,
    }
}

#[test]
fn each_placing_error_is_printed_in_words_and_by_its_name(rt: HostRuntime) {
    let texts = [
        (PlacingError::NoQuantity, "an order for nothing, NoQuantity"),
        (
            PlacingError::WouldTrade,
            "the order would trade, WouldTrade",
        ),
        (
            PlacingError::WouldNotFill,
            "the order would not be filled, WouldNotFill",
        ),
        (
            PlacingError::BeyondMaxCapacity,
            "as many orders as there can be, BeyondMaxCapacity",
        ),
        (PlacingError::AllocError, "out of memory, AllocError"),
    ];
    for (refusal, wanted) in &texts {
        assert!(rt; is_text(text_of_placing(rt.alloc(), *refusal), wanted));
    }
}

#[test]
fn each_replacing_error_is_printed_in_words_and_by_its_name(rt: HostRuntime) {
    let texts = [
        (
            ReplacingError::NoQuantity,
            "an order for nothing, NoQuantity",
        ),
        (ReplacingError::NoOrder, "no such order, NoOrder"),
        (
            ReplacingError::WouldTrade,
            "the order would trade, WouldTrade",
        ),
        (
            ReplacingError::WouldNotFill,
            "the order would not be filled, WouldNotFill",
        ),
        (ReplacingError::AllocError, "out of memory, AllocError"),
    ];
    for (refusal, wanted) in &texts {
        assert!(rt; is_text(text_of_replacing(rt.alloc(), *refusal), wanted));
    }
}

#[test]
fn each_adding_error_is_printed_in_words_and_by_its_name(rt: HostRuntime) {
    let texts = [
        (AddingError::NoQuantity, "an order for nothing, NoQuantity"),
        (
            AddingError::BeyondMaxCapacity,
            "as many orders as there can be, BeyondMaxCapacity",
        ),
        (AddingError::AllocError, "out of memory, AllocError"),
    ];
    for (refusal, wanted) in &texts {
        assert!(rt; is_text(text_of_adding(rt.alloc(), *refusal), wanted));
    }
}
