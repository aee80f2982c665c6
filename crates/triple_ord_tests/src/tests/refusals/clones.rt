//! Clones of items that own text, into all kinds of receivers.
ghost use Rattle.std.specs.Prelude.{◌≡◌};

use super::support::{OnHeap, leave, look, looks_like, new_heap};
use linked_list_allocator::LocalHeap;
use std::alloc::{AllocError, Global};
use std::marker::Model;
use std::process::Abort;
use triple_ord::{Arena, ArenaTrait, BasePtr, ChainArena, OrdPair, P0, ReallocationError};

/// A text on a heap.
#[derive(Debug, Drop)]
struct Text<'h> {
    text: String<&'h LocalHeap>,
}

impl<'h> Model for Text<'h> {
    ghost use Rattle.std.specs.Prelude.{ℕ, List, string_bytes};

    ghost Value = { List ℕ };

    ghost view = { λ t. string_bytes t.text };
}

impl Clone for Text<'_> {
    ghost is_clone = { λ x y. y ≡ x };

    fn clone(&self) -> Result<Self, AllocError> {
        Ok(Text {
            text: self.text.clone()?,
        })
    }
}

/// A key with a text.
type Item<'h> = OrdPair<u64, Text<'h>>;

/// An arena of texts.
type Texts<'h> = OnHeap<'h, Item<'h>>;

/// An arena of lengths.
type Lengths<'h> = Arena<P0, usize, &'h LocalHeap>;

/// A chain of lengths.
type Chain<'h> = ChainArena<P0, usize, &'h LocalHeap>;

/// A key with a text.
fn item<'h>(rt: &impl Abort, heap: &'h LocalHeap, key: u64, word: &str) -> Item<'h> {
    let text = String::from_str(heap, word).expect(rt, "memory");
    OrdPair::new(key, Text { text })
}

/// Inserts a text by its key. Returns whether that succeeded.
fn is_put<'h>(texts: &mut Texts<'h>, item: Item<'h>) -> bool {
    texts.insert(item).is_ok()
}

/// Inserts texts by their keys.
fn put_texts<'h>(
    rt: &impl Abort,
    heap: &'h LocalHeap,
    texts: &mut Texts<'h>,
    rows: &[(u64, &str)],
) {
    for (key, word) in rows {
        assert!(rt; is_put(texts, item(rt, heap, *key, *word)));
    }
}

/// An arena with room for `capacity` entries, with texts inserted by their keys.
fn filled<'h>(
    rt: &impl Abort,
    heap: &'h LocalHeap,
    capacity: usize,
    rows: &[(u64, &str)],
) -> Texts<'h> {
    let mut texts = Texts::with_min_capacity(heap, capacity).expect(rt, "memory");
    put_texts(rt, heap, &mut texts, rows);
    texts
}

/// The texts of the source.
const ROWS: &[(u64, &str)] = &[
    (2, "a text that needs room of its own"),
    (4, ""),
    (3, "a third one, no shorter than the first"),
    (1, "the first in order"),
];

/// The source. The second text is removed again, which leaves the indexes 4, 1 and 3, in order.
fn source<'h>(rt: &impl Abort, heap: &'h LocalHeap) -> Texts<'h> {
    let mut texts = filled(rt, heap, 4, ROWS);
    let _ = texts.remove(P0::_from_raw(2, 2));
    texts
}

/// What the source looks like, and every clone of it.
const SOURCE: &str =
    "(3, 4, None, 3) P0[4](2)=(1, Text { text: \"the first in order\" }):1 P0[1](2)=(2, Text { text: \"a text that needs room of its own\" }):3 P0[3](2)=(3, Text { text: \"a third one, no shorter than the first\" }):1";

/// The texts of a receiver with entries.
const OLD: &[(u64, &str)] = &[(7, "an old one"), (6, "an older one")];

/// What a receiver with room for two looks like after its growth fails: as before.
const KEPT: &str =
    "(2, 2, None, 2) P0[2](2)=(6, Text { text: \"an older one\" }):1 P0[1](2)=(7, Text { text: \"an old one\" }):2";

/// What every receiver looks like after cloning an item fails: it is empty.
const EMPTIED: &str = "(0, 4, None, 3)";

/// What the source is cloned into.
#[derive(Clone, Copy)]
enum Kind {
    /// A new arena.
    New,
    /// An arena with entries whose capacity must grow.
    Growing,
    /// An arena with entries and room.
    Roomy,
    /// An arena without an order.
    Arena,
    /// A chain.
    Chain,
}

/// The receivers.
#[derive(Drop)]
struct Receivers<'h> {
    texts: Texts<'h>,
    arena: Lengths<'h>,
    chain: Chain<'h>,
}

/// Receivers for a kind.
fn make_receivers<'h>(rt: &impl Abort, heap: &'h LocalHeap, kind: Kind) -> Receivers<'h> {
    let capacity = if matches!(kind, Kind::Growing) { 2 } else { 4 };
    Receivers {
        texts: filled(rt, heap, capacity, OLD),
        arena: Arena::new(heap),
        chain: ChainArena::new(heap),
    }
}

/// Clones the source. Returns 0 on success and 1 on `Err`.
fn to_new(rt: &impl Abort, alloc: Global, source: &Texts) -> usize {
    match source.clone() {
        Ok(texts) => {
            looks_like(rt, alloc, &texts, SOURCE);
            0
        }
        Err(_) => 1,
    }
}

/// The number of an outcome: 0 on success, 1 if there was no memory, else 3.
fn number_of(outcome: Result<(), ReallocationError>) -> usize {
    match outcome {
        Ok(()) => 0,
        Err(ReallocationError::AllocError) => 1,
        Err(ReallocationError::BeyondMaxCapacity) => 3,
    }
}

/// What became of a receiver with entries, given the number of the outcome: 0 if it is a clone, 1 if it is unchanged, 2 if it is empty,
/// else 3.
fn left_by(number: usize, now: &str) -> usize {
    if number == 0 && now == SOURCE {
        0
    } else if number == 1 && now == KEPT {
        1
    } else if number == 1 && now == EMPTIED {
        2
    } else {
        3
    }
}

/// Clones the source into an arena with entries.
fn to_texts<'h>(
    rt: &impl Abort,
    alloc: Global,
    source: &Texts<'h>,
    texts: &mut Texts<'h>,
) -> usize {
    let outcome = texts.clone_from_arena(source);
    left_by(number_of(outcome), look(rt, alloc, texts).as_str())
}

/// What became of a container without room, given the number of the outcome and its length, capacity and generation: 0 if it is a clone,
/// 1 if it is unchanged, else 3.
fn made_by(number: usize, len: usize, capacity: usize, generation: u64) -> usize {
    if number == 0 && len == 3 && capacity == 4 && generation == 3 {
        0
    } else if number == 1 && len == 0 && capacity == 0 && generation == 2 {
        1
    } else {
        3
    }
}

/// The length of an item's text.
fn length_of(_p: P0, pair: &Item) -> usize {
    pair.v().text.len()
}

/// Clones the source to an arena without an order.
fn to_arena(source: &Texts, arena: &mut Lengths) -> usize {
    let outcome = source.clone_to_arena(arena, length_of);
    made_by(
        number_of(outcome),
        arena.len(),
        arena.capacity(),
        arena.generation(),
    )
}

/// Clones the source to a chain.
fn to_chain(source: &Texts, chain: &mut Chain) -> usize {
    let outcome = source.clone_to_chain_arena(chain, length_of);
    made_by(
        number_of(outcome),
        chain.len(),
        chain.capacity(),
        chain.generation(),
    )
}

/// Clones the source. Returns what became of the receiver.
fn clone_to<'h>(
    rt: &impl Abort,
    alloc: Global,
    source: &Texts<'h>,
    kind: Kind,
    receivers: &mut Receivers<'h>,
) -> usize {
    match kind {
        Kind::New => to_new(rt, alloc, source),
        Kind::Growing | Kind::Roomy => to_texts(rt, alloc, source, &mut receivers.texts),
        Kind::Arena => to_arena(source, &mut receivers.arena),
        Kind::Chain => to_chain(source, &mut receivers.chain),
    }
}

/// The same with this many units of room left.
fn clone_in_little<'h>(
    rt: &impl Abort,
    alloc: Global,
    source: &Texts<'h>,
    kind: Kind,
    heap: &'h LocalHeap,
    units: usize,
    receivers: &mut Receivers<'h>,
) -> usize {
    let _block = leave(rt, heap, units);
    clone_to(rt, alloc, source, kind, receivers)
}

/// Clones the source with this many units of room left, and then once more with memory. Returns what became of the receiver at first.
fn left_of<'h>(
    rt: &impl Abort,
    alloc: Global,
    source: &Texts<'h>,
    kind: Kind,
    heap: &'h LocalHeap,
    units: usize,
    receivers: &mut Receivers<'h>,
) -> usize {
    let left = clone_in_little(rt, alloc, source, kind, heap, units, receivers);
    assert!(rt; clone_to(rt, alloc, source, kind, receivers) == 0);
    left
}

/// The same with new receivers.
fn left_on<'h>(
    rt: &impl Abort,
    alloc: Global,
    source: &Texts<'h>,
    kind: Kind,
    heap: &'h LocalHeap,
    units: usize,
) -> usize {
    let mut receivers = make_receivers(rt, heap, kind);
    left_of(rt, alloc, source, kind, heap, units, &mut receivers)
}

/// The possible outcomes for a receiver: growing fails first, and without growing only cloning an item can fail.
fn wanted_of(kind: Kind) -> [bool; 4] {
    match kind {
        Kind::Roomy => [true, false, true, false],
        _ => [true, true, false, false],
    }
}

/// The source is cloned on a heap with little room, and on one with enough. It is unchanged.
fn each_request_into<'h>(
    rt: &impl Abort,
    alloc: Global,
    heap: &'h LocalHeap,
    source: &Texts<'h>,
    kind: Kind,
) {
    let mut met = [false; 4];
    for units in 0usize..100 {
        met[left_on(rt, alloc, source, kind, heap, units) % 4] = true;
    }
    assert!(rt; met == wanted_of(kind));
    looks_like(rt, alloc, source, SOURCE);
}

/// All kinds.
const KINDS: [Kind; 5] = [
    Kind::New,
    Kind::Growing,
    Kind::Roomy,
    Kind::Arena,
    Kind::Chain,
];

/// The same for each kind.
fn each_request_of<'h>(rt: &impl Abort, alloc: Global, heap: &'h LocalHeap, source: &Texts<'h>) {
    for kind in &KINDS {
        each_request_into(rt, alloc, heap, source, *kind);
    }
}

/// The same with a new source.
fn each_request_on(rt: &impl Abort, alloc: Global, heap: &LocalHeap) {
    let source = source(rt, heap);
    each_request_of(rt, alloc, heap, &source);
}

#[test]
fn a_failed_clone_leaves_its_receiver_unchanged_or_empty(rt: HostRuntime) {
    let heap = new_heap(&rt, rt.alloc());
    each_request_on(&rt, rt.alloc(), &heap);
}
