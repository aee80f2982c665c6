//! A leaderboard: players by their scores.

ghost use Rattle.std.specs.Prelude.{◌≡◌, ◌≢◌, ◌==◌, ◌&&◌, ℕ, List, [], Some, IfOk, IsOk, OnOk, IfSome, IsSomeAnd, IfErr, OnErr, map, ◌++◌, ◌≤◌, take, reverse, length, fold, min, ◌+◌, ◌-◌, ◌^◌};
ghost use Rattle.std.specs.Option.{option_map};
ghost use Rattle.std.specs.{Ordering.nat_cmp, Cmp.Lexicographic.pointwise};
ghost use Rattle.std.specs.declared.ops.Bound.TheVariants.{Included, Excluded, Unbounded};
ghost use Rattle.std.specs.declared.cmp.Ordering.TheVariants.{Greater};
ghost use Rattle.sorted_arena.specs.{Range.entries_between, Merge.merged, Change.refusal_of};
ghost use Rattle.sorted_arena.specs.Sorted.{get, count, key_of, value_of, pair_of, Keeps, Updates};

use sorted_arena::{P0, ReallocationError, SortedArena, SortedError};
use std::alloc::{AllocError, Global};
use std::ops::Bound;

/// Players by their scores.
pub type Leaderboard = SortedArena<u64, u64>;

/// Enters a player with a score, and returns the player's place.
pub fn enter(board: &mut Leaderboard, score: u64, player: u64) -> Result<P0, ReallocationError>
    ensures entered { IfOk result
        (λ place. Updates board.old board.new place (Some (score, player))) }
    ensures refused { OnErr result (board.new ≡ board.old) }
{
    match board.insert(score, player) {
        Ok(place) => Ok(place),
        Err((_, refusal)) => Err(refusal),
    }
}

/// Enters players by rising scores behind all others, where there is room for them, as after a `reserve`. Memory can't be refused then. On
/// `Err` those from the first player out of order on come back.
pub fn enter_all(
    board: &mut Leaderboard,
    players: Vec<(u64, u64)>,
) -> Result<(), (Vec<(u64, u64)>, SortedError)>
    requires { count board.old + length players.items ≤ board.old.capacity }
    ensures entered { OnOk result
        (map pair_of board.new.entries ≡ map pair_of board.old.entries ++ players.items) }
    ensures room { board.new.capacity ≡ board.old.capacity }
    ensures memory { refusal_of result ≢ Some SortedError.AllocError }
    ensures back { IfErr result (λ e. (front : List (ℕ × ℕ))
        × (players.items ≡ front ++ e.0.items)
        × (map pair_of board.new.entries ≡ map pair_of board.old.entries ++ front)) }
    ensures kept { Keeps board.old board.new }
{
    board.extend_sorted(players)
}

/// Makes a leaderboard of players by rising scores, with room for them and no others.
pub fn of_players(
    alloc: Global,
    players: Vec<(u64, u64)>,
) -> Result<Leaderboard, (Vec<(u64, u64)>, SortedError)>
    ensures entered { IfOk result (λ board. map pair_of board.entries ≡ players.items) }
    ensures room { IfOk result (λ board. board.capacity ≡ length players.items) }
    ensures back { IfErr result (λ e. e.0.items ≡ players.items) }
    ensures none { players.items ≡ [] → IsOk result }
{
    SortedArena::from_sorted(alloc, players)
}

/// Gives a player another score. The place stays valid. Returns the old score.
pub fn set_score(board: &mut Leaderboard, place: P0, score: u64) -> Option<u64>
    ensures before { result ≡ option_map (λ e. e.0) (get board.old place) }
    ensures updates { Updates board.old board.new place
        (option_map (λ e. (score, e.1)) (get board.old place)) }
    ensures count { count board.new ≡ count board.old }
{
    board.rekey(place, score).ok()
}

/// Returns how many players have a greater score, in O(log n + their number).
pub fn ahead(board: &Leaderboard, place: P0) -> Option<usize>
    ensures { result ≡ option_map (λ e. length (entries_between nat_cmp (Excluded e.0) Unbounded
        board.now.entries)) (get board.now place) }
{
    let score = board.key(place)?;
    Some(
        board
            .range((Bound::Excluded(score), Bound::Unbounded))
            .count(),
    )
}

/// Returns the first `n` players by score, the best one first; of those with equal scores the one that came last is first.
pub fn top(alloc: Global, board: &Leaderboard, n: usize) -> Result<Vec<u64>, AllocError>
    ensures { IfOk result (λ best. best.items ≡ take n (reverse (map value_of board.now.entries))) }
{
    board
        .iter()
        .values_descending()
        .take(n)
        .copied()
        .collect(alloc)
}

/// Returns the sum of all scores that are at least `from` and less than `until`, or the greatest number if it doesn't fit.
pub fn total(board: &Leaderboard, from: u64, until: u64) -> u64
    ensures { result ≡ fold (λ total score. min (2 ^ 64 - 1) (total + score)) 0
        (map key_of (entries_between nat_cmp (Included from) (Excluded until) board.now.entries)) }
{
    board
        .range(from..until)
        .keys()
        .fold(0, |total: u64, score| total.saturating_add(*score))
}

/// Takes in the players of another board, which has none then. All places on this board stay valid. If there is no room, nothing changes.
pub fn merge(board: &mut Leaderboard, other: &mut Leaderboard) -> Result<(), ReallocationError>
    ensures players { OnOk result (map pair_of board.new.entries
        ≡ merged nat_cmp (map pair_of board.old.entries) (map pair_of other.old.entries)) }
    ensures places { Keeps board.old board.new }
    ensures count { OnOk result (count board.new ≡ count board.old + count other.old) }
    ensures emptied { OnOk result (other.new.entries ≡ []) }
    ensures refused { OnErr result (board.new ≡ board.old) }
{
    board.append(other)
}

/// Returns a copy of a board, with the same places.
pub fn copy_of(board: &Leaderboard) -> Result<Leaderboard, AllocError>
    ensures { IfOk result (λ copy. copy.entries ≡ board.now.entries) }
{
    board.clone()
}

/// Returns whether two boards have the same players with the same scores, in the same order.
pub fn are_same(one: &Leaderboard, other: &Leaderboard) -> bool
    ensures { result ≡ pointwise (λ p q. (p.0 == q.0) && (p.1 == q.1))
        (map pair_of one.now.entries) (map pair_of other.now.entries) }
{
    one == other
}

/// Returns the score of the player directly ahead, which is at least as great. `None` if there is no such player.
pub fn score_ahead(board: &Leaderboard, place: P0) -> Option<u64>
    ensures { IfSome result (λ score. IsSomeAnd (get board.now place)
        (λ e. nat_cmp e.0 score ≢ Greater)) }
{
    let ahead = board.next(place)?;
    let score = board.key(ahead)?;
    Some(*score)
}
