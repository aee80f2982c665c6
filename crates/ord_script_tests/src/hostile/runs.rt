//! Runs of commands on small heaps, compared with a plain sorted vector that follows the replies.
use linked_list_allocator::LocalHeap;
use ord_script::{Command, Reply, run};
use std::alloc::{AllocError, Global};
use std::cmp::Ordering;
use triple_ord::{BasePtr, OrdEntryKind, OrdInsertionError, OrdPair, P0, SimpleOrdArena};

type Item = OrdPair<u64, u64>;

type Numbers<'h> = SimpleOrdArena<P0, Item, &'h LocalHeap>;

/// One command of the run.
#[derive(Clone, Copy)]
enum Line {
    Insert(u64),
    /// Rekeys the entry at the index with the first generation.
    Rekey(u32, u64),
    Find(u64),
    List,
    Ranks,
    Drain(usize),
}

use Line::{Drain, Find, Insert, List, Ranks, Rekey};

/// Commands that list and remove the existing entries, and then 32 commands. The arena grows at the first, the fifth and the ninth entry,
/// and starts again after a drain.
const LINES: [Line; 34] = [
    List,
    Drain(99),
    Ranks,
    Insert(50),
    Insert(30),
    Insert(70),
    List,
    Insert(60),
    Ranks,
    Insert(10),
    Rekey(2, 65),
    Find(60),
    List,
    Insert(20),
    Insert(90),
    Insert(80),
    Ranks,
    Insert(40),
    Rekey(4, 50),
    List,
    Find(45),
    Insert(45),
    Ranks,
    Drain(3),
    List,
    Insert(7),
    Insert(5),
    List,
    Insert(6),
    Ranks,
    Drain(9),
    Find(7),
    Insert(1),
    List,
];

/// Returns the pointer at an index with the first generation.
fn first_pointer(i: u32) -> P0 {
    P0::_from_raw(i, 2)
}

fn command(line: Line) -> Command<P0, Item> {
    match line {
        Insert(key) => Command::Insert(OrdPair::new(key, 0)),
        Rekey(i, key) => Command::Rekey(first_pointer(i), OrdPair::new(key, 0)),
        Find(key) => Command::Find(key),
        List => Command::List,
        Ranks => Command::Ranks,
        Drain(count) => Command::DrainOrdered(count),
    }
}

/// The entries as a plain vector, in key order.
type Plain = Vec<(P0, u64)>;

/// Returns where a key is, or belongs.
fn place_of(plain: &Plain, key: u64) -> usize {
    plain.iter().filter(|entry| entry.1 < key).count()
}

/// Returns the pointer of a key.
fn pointer_of(plain: &Plain, key: u64) -> Option<P0> {
    for entry in plain {
        if entry.1 == key {
            return Some(entry.0);
        }
    }
    None
}

/// Returns whether an entry of the vector is this one.
fn is_entry(entry: Option<&(P0, u64)>, told: &(P0, Item)) -> bool {
    match entry {
        Some(entry) => entry.0 == told.0 && entry.1 == *told.1.k(),
        None => false,
    }
}

/// Returns whether these are the first `count` entries.
fn are_first(plain: &[(P0, u64)], entries: &[(P0, Item)], count: usize) -> bool {
    for place in 0..entries.len() {
        if !is_entry(plain.get(place), &entries[place]) {
            return false;
        }
    }
    entries.len() == plain.len().min(count)
}

/// Makes an insertion in the vector. Returns whether the key is new there, and memory was found.
fn insert(plain: &mut Plain, key: u64, p: P0) -> bool {
    let place = place_of(plain, key);
    let is_new = pointer_of(plain, key).is_none();
    place <= plain.len() && plain.insert(place, (p, key)).is_ok() && is_new
}

/// A reply of the run.
type Told<'h> = Reply<P0, Item, &'h LocalHeap>;

/// Returns whether a reply is a refusal of memory.
fn is_refusal(reply: &Told) -> bool {
    matches!(reply, Reply::Refused(OrdInsertionError::AllocError))
}

/// Returns whether a reply fits an insertion, which is made in the vector too.
fn is_insertion(plain: &mut Plain, key: u64, reply: &Told) -> bool {
    match reply {
        Reply::Inserted(OrdEntryKind::New(p), None) => insert(plain, key, *p),
        _ => is_refusal(reply) && pointer_of(plain, key).is_none(),
    }
}

/// Returns the place of a pointer.
fn place_of_pointer(plain: &Plain, p: P0) -> Option<usize> {
    plain.iter().position(|entry| entry.0 == p)
}

/// Returns the key at a place.
fn key_at(plain: &Plain, place: usize) -> Option<u64> {
    plain.get(place).map(|entry| entry.1)
}

/// Moves an entry of the vector behind those whose key is at most this one.
fn move_entry(plain: &mut Plain, place: usize, key: u64) -> bool {
    if place >= plain.len() {
        return false;
    }
    let entry = plain.remove(place);
    let behind = plain.iter().filter(|entry| entry.1 <= key).count();
    behind <= plain.len() && plain.insert(behind, (entry.0, key)).is_ok()
}

/// Returns whether a reply fits a `Rekey`, which is made in the vector too.
fn is_rekey(plain: &mut Plain, p: P0, key: u64, reply: &Told) -> bool {
    match (reply, place_of_pointer(plain, p)) {
        (Reply::Item(Some(before)), Some(place)) => {
            key_at(plain, place) == Some(*before.k()) && move_entry(plain, place, key)
        }
        (Reply::Item(None), None) => true,
        _ => false,
    }
}

/// Returns whether a reply fits a search.
fn is_search(plain: &Plain, key: u64, reply: &Told) -> bool {
    match reply {
        Reply::Found(found, _) => *found == pointer_of(plain, key),
        _ => false,
    }
}

/// Returns whether a reply has the first `count` entries, or was refused although there are some.
fn is_list(plain: &Plain, count: usize, reply: &Told) -> bool {
    match reply {
        Reply::Entries(entries) => are_first(plain.as_slice(), entries, count),
        _ => is_refusal(reply) && !plain.is_empty(),
    }
}

/// Returns whether a reply has a rank for each entry, or was refused although there are some.
fn is_ranks(plain: &Plain, reply: &Told) -> bool {
    match reply {
        Reply::Ranks(ranks) => ranks.len() == plain.len(),
        _ => is_refusal(reply) && !plain.is_empty(),
    }
}

/// Returns whether a reply fits a drain of `count` entries, which empties the vector unless it was refused.
fn is_drain(plain: &mut Plain, count: usize, reply: &Told) -> bool {
    let is_told = is_list(plain, count, reply);
    if !is_refusal(reply) {
        plain.clear();
    }
    is_told
}

/// Returns whether a reply fits a command to these entries, and changes them accordingly.
fn is_reply(plain: &mut Plain, line: Line, reply: &Told) -> bool {
    match line {
        Insert(key) => is_insertion(plain, key, reply),
        Rekey(i, key) => is_rekey(plain, first_pointer(i), key, reply),
        Find(key) => is_search(plain, key, reply),
        List => is_list(plain, usize::MAX, reply),
        Ranks => is_ranks(plain, reply),
        Drain(count) => is_drain(plain, count, reply),
    }
}

/// What was refused in a run: the replies, insertions, lists, ranks, drains.
type Refusals = [bool; 5];

/// Returns the place of a command among these.
fn place_among(line: Line) -> usize {
    match line {
        Insert(_) | Rekey(_, _) | Find(_) => 1,
        List => 2,
        Ranks => 3,
        Drain(_) => 4,
    }
}

/// The commands of the run, on a heap.
type Commands<'h> = Vec<Command<P0, Item>, &'h LocalHeap>;

/// Adds the commands of the run, if there is memory.
fn add_commands(commands: &mut Commands) -> Result<(), AllocError> {
    commands.reserve_exact(LINES.len())?;
    for line in &LINES {
        commands.push(command(*line))?;
    }
    Ok(())
}

/// Returns whether a reply fits a command to these entries, changes them accordingly, and marks a refusal.
fn is_marked(plain: &mut Plain, line: Line, reply: &Told, refused: &mut Refusals) -> bool {
    if is_refusal(reply) {
        refused[place_among(line) % 5] = true;
    }
    is_reply(plain, line, reply)
}

/// Returns whether the replies fit the commands.
fn are_replies(plain: &mut Plain, replies: &[Told], refused: &mut Refusals) -> bool {
    for place in 0..replies.len() {
        if !is_marked(plain, LINES[place % 34], &replies[place], refused) {
            return false;
        }
    }
    replies.len() == LINES.len()
}

/// The replies to the commands, unless memory for them was refused.
type Outcome<'h> = Result<Vec<Told<'h>, &'h LocalHeap>, AllocError>;

/// Returns whether the replies fit the commands. If the replies were refused, the arena must have taken no memory.
fn is_outcome(
    plain: &mut Plain,
    outcome: &Outcome,
    capacity: usize,
    refused: &mut Refusals,
) -> bool {
    match outcome {
        Ok(replies) => are_replies(plain, replies, refused),
        Err(AllocError) => {
            refused[0] = true;
            capacity == 0
        }
    }
}

/// Runs the commands on an arena.
fn outcome_of<'h>(
    heap: &'h LocalHeap,
    arena: &mut Numbers<'h>,
    commands: Commands<'h>,
) -> Outcome<'h> {
    let mut closure = |_p: P0, _item: &Item| Ordering::Equal;
    run(heap, arena, commands, &mut closure)
}

/// Returns whether the commands change an arena as they change the vector, which has the same entries.
fn is_run<'h>(
    heap: &'h LocalHeap,
    arena: &mut Numbers<'h>,
    commands: Commands<'h>,
    plain: &mut Plain,
    refused: &mut Refusals,
) -> bool {
    let outcome = outcome_of(heap, arena, commands);
    is_outcome(plain, &outcome, arena.capacity(), refused)
}

/// Returns what the commands are refused with this many units of room left, if they do what they should.
fn run_in<'h>(
    heap: &'h LocalHeap,
    units: usize,
    arena: &mut Numbers<'h>,
    plain: &mut Plain,
) -> Option<Refusals> {
    let mut refused = [false; 5];
    let mut commands = Vec::new(heap);
    let is_full = add_commands(&mut commands).is_ok();
    let room = heap.free().saturating_sub(units.saturating_mul(16));
    let taken: Result<Vec<u8, &LocalHeap>, AllocError> = Vec::with_capacity(heap, room);
    let is_right = is_run(heap, arena, commands, plain, &mut refused);
    (is_full && taken.is_ok() && is_right).then_some(refused)
}

/// Returns what the commands are refused on an empty arena with this many units of room left, if they do what they should. Then they run
/// again with enough memory: nothing may be refused, and the first list must show what the first run left.
fn run_twice(alloc: Global, heap: &LocalHeap, units: usize) -> Option<Refusals> {
    let mut arena = SimpleOrdArena::new(heap);
    let mut plain = Vec::new(alloc);
    let refused = run_in(heap, units, &mut arena, &mut plain);
    let again = run_in(heap, usize::MAX, &mut arena, &mut plain);
    if again == Some([false; 5]) {
        refused
    } else {
        None
    }
}

#[test]
fn a_run_short_of_memory_does_what_its_replies_say(rt: HostRuntime) {
    let heap = LocalHeap::new(rt.alloc(), 1 << 14).expect(&rt, "a heap");
    let mut met = [false; 5];
    let mut is_met_nothing = false;
    for units in 0usize..400 {
        let refused = run_twice(rt.alloc(), &heap, units).expect(&rt, "the replies of the run");
        for place in 0usize..5 {
            met[place] = met[place] || refused[place];
        }
        is_met_nothing = is_met_nothing || refused == [false; 5];
    }
    assert!(rt; met == [true; 5] && is_met_nothing);
}
