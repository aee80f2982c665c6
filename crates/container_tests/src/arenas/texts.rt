//! Arenas, pointers and errors, as printed.
use arena_base::{
    Arena, BasePtr, InsertionError, MaxCapacityReductionError, P0, P8, P32, PN, Q0,
    ReallocationError,
};
use std::alloc::Global;

/// Returns an arena with two words.
fn words(alloc: Global) -> Arena<P0, &'static str> {
    let mut arena = Arena::new(alloc);
    let _ = arena.insert_reallocating("test");
    let _ = arena.insert_reallocating("hello");
    arena
}

/// Returns whether there was memory for a text, and it is this one.
fn is_text(text: Option<String>, wanted: &str) -> bool {
    match text {
        Some(text) => text.as_str() == wanted,
        None => false,
    }
}

/// Returns the text of an arena.
fn text_of(alloc: Global, arena: &Arena<P0, &'static str>) -> Option<String> {
    format!(in alloc; "{arena:?} {arena:#?}").ok()
}

/// The text of the arena with two words.
const WORDS: &str =
    "{P0[1](2): \"test\", P0[2](2): \"hello\"} {\n    P0[1](2): \"test\",\n    P0[2](2): \"hello\",\n}";

#[test]
fn an_arena_prints_as_a_map(rt: HostRuntime) {
    assert!(rt; is_text(text_of(rt.alloc(), &words(rt.alloc())), WORDS));
}

/// Returns the texts of pointers of five types.
fn text_of_pointers(alloc: Global) -> Option<String> {
    let (p, q) = (P0::invalid(), Q0::_from_raw(7, 3));
    let (small, plain) = (P8::invalid(), PN::_from_raw(1, ()));
    let middle = P32::_from_raw(7, 3);
    format!(in alloc; "{p:?} {q:#?} {middle:?} {small:?} {plain:?}").ok()
}

#[test]
fn pointers_print_their_index_and_generation(rt: HostRuntime) {
    let wanted = "P0[4294967295](1) Q0[7](3) P32[7](3) P8[255](1) PN[1](())";
    assert!(rt; is_text(text_of_pointers(rt.alloc()), wanted));
}

/// Returns the texts of the errors of a change of the capacity.
fn text_of_reallocations(alloc: Global) -> Option<String> {
    let (beyond, memory) = (
        ReallocationError::BeyondMaxCapacity,
        ReallocationError::AllocError,
    );
    format!(in alloc; "{beyond}, {beyond:?}; {memory}, {memory:?}").ok()
}

/// Returns the texts of the errors of an insertion.
fn text_of_insertions(alloc: Global) -> Option<String> {
    let (within, beyond, memory) = (
        InsertionError::NotWithinCapacity,
        InsertionError::BeyondMaxCapacity,
        InsertionError::AllocError,
    );
    format!(in alloc; "{within}, {within:?}; {beyond}, {beyond:?}; {memory}, {memory:?}").ok()
}

/// Returns the texts of the error of setting a maximum.
fn text_of_reductions(alloc: Global) -> Option<String> {
    format!(in alloc; "{MaxCapacityReductionError}, {MaxCapacityReductionError:?}").ok()
}

#[test]
fn errors_print_their_reason(rt: HostRuntime) {
    let reallocations =
        "the capacity would go beyond its maximum, BeyondMaxCapacity; out of memory, AllocError";
    assert!(rt; is_text(text_of_reallocations(rt.alloc()), reallocations));
    let insertions =
        "no room within the capacity, NotWithinCapacity; no room within the maximum capacity, BeyondMaxCapacity; out of memory, AllocError";
    assert!(rt; is_text(text_of_insertions(rt.alloc()), insertions));
    let reductions = "the maximum is below the capacity, MaxCapacityReductionError";
    assert!(rt; is_text(text_of_reductions(rt.alloc()), reductions));
}
