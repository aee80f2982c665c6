//! `run` on arenas of letters under pointers of eight bits.
use arena_base::{BasePtr, InvalidationOption, InvalidationResult, P8};
use ord_script::{Command, Reply, run};
use std::alloc::{AllocError, Global};
use std::cmp::Ordering;
use triple_ord::{OrdInsertKind, OrdInsertionError, SimpleOrdArena, SimpleOrdItem};

/// An item type of the tests: a letter, found by its number.
#[derive(Clone, Copy, Debug, PartialEq, Eq)]
struct Letter {
    number: u16,
    letter: char,
}

impl SimpleOrdItem for Letter {
    type Key = u16;

    ghost key_of = { λ l. l.number };

    fn key(&self) -> &u16 {
        &self.number
    }
}

/// Returns a letter with its number.
fn item(number: u16, letter: char) -> Letter {
    Letter { number, letter }
}

/// A reply from the global heap.
type Answer = Reply<P8, Letter, Global>;

/// Returns the replies to these commands.
fn replies_to(
    alloc: Global,
    arena: &mut SimpleOrdArena<P8, Letter>,
    commands: Vec<Command<P8, Letter>>,
) -> Result<Vec<Answer>, AllocError> {
    let mut closure = |_p: P8, _l: &Letter| Ordering::Equal;
    run(alloc, arena, commands, &mut closure)
}

/// Returns whether the reply at this place says that a search found this pointer, or none, after this many visits.
fn is_found(replies: &[Answer], place: usize, p: Option<P8>, visits: u128) -> bool {
    match replies.get(place) {
        Some(Reply::Found(found, counted)) => *found == p && *counted == visits,
        _ => false,
    }
}

/// Returns whether the reply at this place says that a search ended at a pointer, with this order to it, after this many visits.
fn is_similar(replies: &[Answer], place: usize, similar: (P8, Ordering), visits: u128) -> bool {
    match replies.get(place) {
        Some(Reply::Similar(found, counted)) => *found == Some(similar) && *counted == visits,
        _ => false,
    }
}

/// Returns whether the reply at this place is this change of the generation.
fn is_changed(replies: &[Answer], place: usize, overflow: InvalidationOption<()>) -> bool {
    matches!(replies.get(place), Some(Reply::Changed(told)) if *told == overflow)
}

/// Returns the error of the reply at this place.
fn refusal_at(replies: &[Answer], place: usize) -> Option<OrdInsertionError> {
    match replies.get(place)? {
        Reply::Refused(refusal) => Some(*refusal),
        _ => None,
    }
}

/// Returns the place behind the entry with index 1.
fn behind_the_first() -> OrdInsertKind<P8, u16> {
    OrdInsertKind::Manual {
        p_target: 1,
        direction: Ordering::Greater,
    }
}

/// Returns insertions by an entry, of items with other keys than the entry's, within a capacity of three and beyond it.
fn entry_commands(alloc: Global) -> Result<Vec<Command<P8, Letter>>, AllocError> {
    let commands = vec![in alloc;
        Command::Reserve(3),
        Command::EntryWithin(OrdInsertKind::Empty, item(20, 'b')),
        Command::EntryWithin(OrdInsertKind::Normal(20), item(90, 'B')),
        Command::Entry(OrdInsertKind::Normal(10), item(95, 'a')),
        Command::EntryWithin(behind_the_first(), item(1, 'c')),
        Command::EntryWithin(behind_the_first(), item(2, 'd')),
        Command::List,
    ]?;
    Ok(commands)
}

/// The entries of the list that follows.
const LISTED: &[(u8, Letter)] = &[
    (
        2,
        Letter {
            number: 95,
            letter: 'a',
        },
    ),
    (
        1,
        Letter {
            number: 90,
            letter: 'B',
        },
    ),
    (
        3,
        Letter {
            number: 1,
            letter: 'c',
        },
    ),
];

/// Returns whether the reply at this place lists these entries.
fn is_listed(replies: &[Answer], place: usize, wanted: &[(u8, Letter)]) -> bool {
    match replies.get(place) {
        Some(Reply::Entries(entries)) => {
            let found = entries.iter().map(|entry| (entry.0.inx(), entry.1));
            found.eq(wanted.iter().copied())
        }
        _ => false,
    }
}

#[test]
fn an_insertion_by_entry_uses_the_key_of_the_entry_not_of_the_item(rt: HostRuntime) {
    let mut arena = SimpleOrdArena::new(rt.alloc());
    let replies = replies_to(
        rt.alloc(),
        &mut arena,
        entry_commands(rt.alloc()).expect(&rt, "memory"),
    )
    .expect(&rt, "memory");
    assert!(rt; replies.len() == 7);
    assert!(rt; refusal_at(&replies, 5) == Some(OrdInsertionError::NotWithinCapacity));
    assert!(rt; is_listed(&replies, 6, LISTED));
}

/// A raised generation, and an overflow.
const RAISED: InvalidationOption<()> = InvalidationOption::Success(());

const BEGUN_AGAIN: InvalidationOption<()> = InvalidationOption::GenerationOverflow(());

/// Returns whether an empty arena now has one entry, with the pointer 1.2, and the greatest generation of eight bits.
fn reaches_last_generation(
    alloc: Global,
    arena: &mut SimpleOrdArena<P8, Letter>,
) -> Result<bool, AllocError> {
    let mut commands = Vec::new(alloc);
    commands.push(Command::Insert(item(1, 'a')))?;
    for _ in 2u8..255 {
        commands.push(Command::IncGeneration)?;
    }
    let replies = replies_to(alloc, arena, commands)?;
    Ok(replies.len() == 254 && is_changed(&replies, 253, RAISED))
}

#[test]
fn a_generation_of_eight_bits_overflows_to_two(rt: HostRuntime) {
    let mut arena = SimpleOrdArena::new(rt.alloc());
    assert!(rt; reaches_last_generation(rt.alloc(), &mut arena).expect(&rt, "memory"));
    let commands = vec![in rt.alloc();
        Command::Invalidate(P8::_from_raw(1, 2)),
        Command::Clear,
    ].expect(&rt, "memory");
    let replies = replies_to(rt.alloc(), &mut arena, commands).expect(&rt, "memory");
    assert!(rt; replies.len() == 2);
    assert!(rt;
        matches!(replies.get(0), Some(Reply::Renewed(InvalidationResult::GenerationOverflow(q))) if q.generation() == 2)
    );
    assert!(rt; is_changed(&replies, 1, RAISED) && arena.generation() == 3);
}

#[test]
fn a_compression_at_the_last_generation_overflows(rt: HostRuntime) {
    let mut arena = SimpleOrdArena::new(rt.alloc());
    assert!(rt; reaches_last_generation(rt.alloc(), &mut arena).expect(&rt, "memory"));
    let commands = vec![in rt.alloc(); Command::Compress(false), Command::Canonical(false)].expect(
        &rt, "memory",
    );
    let replies = replies_to(rt.alloc(), &mut arena, commands).expect(&rt, "memory");
    assert!(rt; replies.len() == 2);
    assert!(rt; is_changed(&replies, 0, BEGUN_AGAIN) && is_changed(&replies, 1, RAISED));
    assert!(rt; arena.generation() == 3);
}

/// Returns the replies to insertions of these numbers into an empty arena. They get the indexes from 1 on.
fn insert_all(
    alloc: Global,
    arena: &mut SimpleOrdArena<P8, Letter>,
    numbers: &[u16],
) -> Result<Vec<Answer>, AllocError> {
    let mut commands = Vec::new(alloc);
    for number in numbers {
        commands.push(Command::Insert(item(*number, 'x')))?;
    }
    replies_to(alloc, arena, commands)
}

#[test]
fn indexes_of_eight_bits_allow_254_entries(rt: HostRuntime) {
    let mut numbers = Vec::new(rt.alloc());
    for number in 0u16..255 {
        numbers.push(number).expect(&rt, "memory");
    }
    let mut arena = SimpleOrdArena::new(rt.alloc());
    let replies = insert_all(rt.alloc(), &mut arena, &numbers).expect(&rt, "memory");
    assert!(rt; replies.len() == 255 && arena.len() == 254);
    assert!(rt; refusal_at(&replies, 254) == Some(OrdInsertionError::BeyondMaxCapacity));
}

/// Numbers of which 50 gets index 1, and 10 index 5.
const FIVE: &[u16] = &[50, 30, 70, 60, 10];

/// Searches by a closure that answers fixed orders in turn, whatever it is shown.
#[test]
fn a_search_by_a_closure_follows_its_answers(rt: HostRuntime) {
    let mut arena = SimpleOrdArena::new(rt.alloc());
    assert!(rt;
        insert_all(rt.alloc(), &mut arena, FIVE)
            .expect(&rt, "memory")
            .len()
            == 5
    );
    let commands = vec![in rt.alloc(); Command::SimilarWith, Command::FindWith].expect(
        &rt, "memory",
    );
    let mut calls = 0u8;
    let mut closure = |_p: P8, _l: &Letter| {
        calls = calls.wrapping_add(1);
        match calls {
            1 | 3 => Ordering::Greater,
            2 | 4 => Ordering::Less,
            _ => Ordering::Equal,
        }
    };
    let replies = run(rt.alloc(), &mut arena, commands, &mut closure).expect(&rt, "memory");
    assert!(rt; (calls, replies.len()) == (5, 2));
    // 50, 70, 60; then 50, 30
    let p60 = P8::_from_raw(4, 2);
    assert!(rt; is_similar(&replies, 0, (p60, Ordering::Greater), 3));
    assert!(rt; is_found(&replies, 1, Some(P8::_from_raw(2, 2)), 2));
}

#[test]
fn searches_from_a_hint_return_entry_and_visits(rt: HostRuntime) {
    let mut arena = SimpleOrdArena::new(rt.alloc());
    assert!(rt;
        insert_all(rt.alloc(), &mut arena, FIVE)
            .expect(&rt, "memory")
            .len()
            == 5
    );
    let (p50, p60, p10) = (
        P8::_from_raw(1, 2),
        P8::_from_raw(4, 2),
        P8::_from_raw(5, 2),
    );
    let commands = vec![in rt.alloc();
        Command::Similar(53),
        Command::SimilarLinear(2, 2, 40),
        Command::FindLinear(p10, 2, 60),
    ]
    .expect(&rt, "memory");
    let replies = replies_to(rt.alloc(), &mut arena, commands).expect(&rt, "memory");
    assert!(rt; replies.len() == 3);
    assert!(rt; is_similar(&replies, 0, (p60, Ordering::Less), 3));
    assert!(rt; is_similar(&replies, 1, (p50, Ordering::Less), 2));
    assert!(rt; is_found(&replies, 2, Some(p60), 5));
}
