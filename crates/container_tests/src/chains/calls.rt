//! Calls in a row, with the result and the state after each.
use super::support::{Entry, Letters, Place, insert, is_listed};
use arena_base::{BasePtr, InvalidationOption};

/// A call on a chain of letters.
#[derive(Clone, Copy)]
enum Call {
    Insert(Place, char),
    Remove(u32),
    Reallocate(usize),
    Canonical(bool),
}

/// The index and the generation of the entry that a call adds or removes; `None` on failure.
type Given = Option<(u32, u64)>;

fn given(chain: &mut Letters, call: Call) -> Given {
    match call {
        Call::Insert(place, letter) => {
            let p = insert(chain, place, letter)?.ok()?;
            Some((p.inx(), p.generation()))
        }
        Call::Remove(i) => Some((i, chain.remove_inx_link_no_gen(i).allow()?.0)),
        Call::Reallocate(n) => done(chain.reallocate_min_capacity(n).is_ok()),
        Call::Canonical(reset) => {
            done(chain.compress_canonical(reset) == InvalidationOption::Success(()))
        }
    }
}

/// The result of a call that returns nothing.
const DONE: Given = Some((0, 0));

fn done(is_done: bool) -> Given {
    if is_done { DONE } else { None }
}

/// A call, its result, the entries after it, and the capacity and generation.
type Row = (Call, Given, &'static [Entry], (usize, u64));

/// Calls on a chain with a capacity of three at first.
const ROWS: &[Row] = &[
    (
        Call::Insert(Place::Alone, 'a'),
        Some((1, 2)),
        &[(1, 2, 'a')],
        (3, 2),
    ),
    (
        Call::Insert(Place::After(1), 'b'),
        Some((2, 2)),
        &[(1, 2, 'a'), (2, 2, 'b')],
        (3, 2),
    ),
    (
        Call::Insert(Place::Before(2), 'c'),
        Some((3, 2)),
        &[(1, 2, 'a'), (3, 2, 'c'), (2, 2, 'b')],
        (3, 2),
    ),
    (
        Call::Remove(3),
        Some((3, 2)),
        &[(1, 2, 'a'), (2, 2, 'b')],
        (3, 3),
    ),
    (Call::Remove(3), None, &[(1, 2, 'a'), (2, 2, 'b')], (3, 3)),
    // at the ends
    (
        Call::Insert(Place::Before(1), 'f'),
        Some((3, 3)),
        &[(3, 3, 'f'), (1, 2, 'a'), (2, 2, 'b')],
        (3, 3),
    ),
    (
        Call::Insert(Place::After(2), 'l'),
        Some((4, 3)),
        &[(3, 3, 'f'), (1, 2, 'a'), (2, 2, 'b'), (4, 3, 'l')],
        (6, 3),
    ),
    (
        Call::Remove(3),
        Some((3, 3)),
        &[(1, 2, 'a'), (2, 2, 'b'), (4, 3, 'l')],
        (6, 4),
    ),
    (
        Call::Remove(4),
        Some((4, 3)),
        &[(1, 2, 'a'), (2, 2, 'b')],
        (6, 5),
    ),
    (Call::Remove(1), Some((1, 2)), &[(2, 2, 'b')], (6, 6)),
    // the last entry goes, and the chain starts again
    (Call::Remove(2), Some((2, 2)), &[], (6, 7)),
    (
        Call::Insert(Place::Alone, 'n'),
        Some((2, 7)),
        &[(2, 7, 'n')],
        (6, 7),
    ),
    (
        Call::Insert(Place::After(2), 'o'),
        Some((1, 7)),
        &[(2, 7, 'n'), (1, 7, 'o')],
        (6, 7),
    ),
    (
        Call::Insert(Place::Before(2), 'm'),
        Some((4, 7)),
        &[(4, 7, 'm'), (2, 7, 'n'), (1, 7, 'o')],
        (6, 7),
    ),
    (
        Call::Reallocate(9),
        DONE,
        &[(4, 7, 'm'), (2, 7, 'n'), (1, 7, 'o')],
        (9, 7),
    ),
    // the canonical order follows the list
    (
        Call::Canonical(false),
        DONE,
        &[(1, 8, 'm'), (2, 8, 'n'), (3, 8, 'o')],
        (9, 8),
    ),
    (
        Call::Canonical(true),
        DONE,
        &[(1, 2, 'm'), (2, 2, 'n'), (3, 2, 'o')],
        (9, 2),
    ),
];

/// Returns whether a call has the result and leaves the state of its row.
fn is_right(chain: &mut Letters, row: &Row) -> bool {
    let (call, wanted, left, counts) = row;
    given(chain, *call) == *wanted
        && is_listed(chain, left)
        && (chain.capacity(), chain.generation()) == *counts
}

#[test]
fn each_call_gives_its_result_and_leaves_its_list(rt: HostRuntime) {
    let mut chain = Letters::with_min_capacity(rt.alloc(), 3).expect(&rt, "memory");
    for row in ROWS {
        assert!(rt; is_right(&mut chain, row));
    }
}
