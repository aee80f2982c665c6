//! The printed errors of insertions.
use std::alloc::Global;
use triple_ord::OrdInsertionError;

/// The texts of an error.
fn text_of(alloc: Global, refusal: OrdInsertionError) -> Option<String> {
    format!(in alloc; "{refusal}, {refusal:?}").ok()
}

/// Whether the texts of an error are these.
fn is_printed(alloc: Global, refusal: OrdInsertionError, wanted: &str) -> bool {
    match text_of(alloc, refusal) {
        Some(text) => text.as_str() == wanted,
        None => false,
    }
}

#[test]
fn insertion_errors_print_their_reason(rt: HostRuntime) {
    let texts = [
        (
            OrdInsertionError::FailedOrdRequirement,
            "the place of the insertion isn't there, FailedOrdRequirement",
        ),
        (
            OrdInsertionError::NotWithinCapacity,
            "no room within the capacity, NotWithinCapacity",
        ),
        (
            OrdInsertionError::BeyondMaxCapacity,
            "no room within the maximum capacity, BeyondMaxCapacity",
        ),
        (OrdInsertionError::AllocError, "out of memory, AllocError"),
    ];
    for (refusal, wanted) in &texts {
        assert!(rt; is_printed(rt.alloc(), *refusal, wanted));
    }
}
