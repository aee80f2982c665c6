//! Running commands on an ordered arena.
ghost use Rattle.std.specs.Prelude.{◌≡◌, ◌<◌, IfOk, OnErr, length};
ghost use Rattle.triple_ord.specs.ClosureSearch.{Asks};
ghost use Rattle.ord_machine.specs.Machine.{calls_by, reading_by, CanRun, StepsBetween, RunsBetween};

use crate::command::Command;
use crate::reply::Reply;
use crate::steps::reply_to;
use std::alloc::{AllocError, Allocator};
use std::cmp::Ordering;
use triple_ord::{BasePtr, SimpleOrdArena, SimpleOrdItem};

/// Runs the commands in order and returns one reply for each.
///
/// A command that fails, even for lack of memory, says so in its reply and changes nothing; the others still run. `FindWith` and
/// `SimilarWith` call the closure, whose state is passed on. It may answer anything, and must be callable for every pointer and item,
/// repeatedly. A clone of an item must equal it. What the replies hold is allocated on `alloc` too.
///
/// # Errors
///
/// `AllocError`: memory for the list of replies is refused, and nothing changes. An empty list of commands never fails.
pub fn run<
    P: BasePtr,
    T: SimpleOrdItem + Clone + Drop,
    F: FnMut(P, &T) -> Ordering,
    A: Allocator + Copy,
>(
    alloc: A,
    arena: &mut SimpleOrdArena<P, T, A>,
    commands: Vec<Command<P, T>, A>,
    closure: &mut F,
) -> Result<Vec<Reply<P, T, A>, A>, AllocError>
where
    T::Key: Drop,
    requires { CanRun T.is_clone F.IsAlwaysCallable closure.old }
    ensures run { IfOk result (λ replies. RunsBetween
        (reading_by T.key_of T.Key.cmp P.Inx.most P.Gen.greatest
        P.numbers P.Inx.number P.Gen.number) (calls_by (Asks P.numbers F.step) T.is_infallible)
        arena.old closure.old commands.items replies.items arena.new closure.new) }
    ensures err { OnErr result (arena.new ≡ arena.old) }
    ensures refused { OnErr result (0 < length commands.items) }
    ensures closure_err { OnErr result (closure.new ≡ closure.old) }
    ensures callable { F.IsAlwaysCallable closure.new }
{
    let mut replies = Vec::with_capacity(alloc, commands.len())?;
    for command in commands {
        let reply = step(alloc, arena, command, closure);
        replies.push(reply).unwrap();
    }
    Ok(replies)
}

// One step.
fn step<
    P: BasePtr,
    T: SimpleOrdItem + Clone + Drop,
    F: FnMut(P, &T) -> Ordering,
    A: Allocator + Copy,
>(
    alloc: A,
    arena: &mut SimpleOrdArena<P, T, A>,
    command: Command<P, T>,
    closure: &mut F,
) -> Reply<P, T, A>
where
    T::Key: Drop,
    requires { CanRun T.is_clone F.IsAlwaysCallable closure.old }
    ensures step { StepsBetween (reading_by T.key_of T.Key.cmp P.Inx.most P.Gen.greatest
        P.numbers P.Inx.number P.Gen.number) (calls_by (Asks P.numbers F.step) T.is_infallible)
        arena.old closure.old command result arena.new closure.new }
    ensures callable { F.IsAlwaysCallable closure.new }
{
    let reply = reply_to(alloc, arena, command, closure);
    // For the prover: the list and the shape are sound.
    let _ = arena.len();
    reply
}
