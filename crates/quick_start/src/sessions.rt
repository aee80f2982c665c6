//! Sessions, each of which ends at a deadline.

ghost use Rattle.std.specs.Prelude.{◌≡◌, ◌≢◌, ◌+◌, ◌-◌, ◌^◌, ℕ, is_some, min};
ghost use Rattle.std.specs.Option.{option_map};
ghost use Rattle.sorted_arena.specs.Sorted.{get};

use sorted_arena::{P0, SortedArena};

/// Moves the deadline of a session by so many seconds. Returns whether the token names one.
pub fn extend<V>(sessions: &mut SortedArena<u64, V>, token: P0, seconds: u64) -> bool
    ensures named { result ≡ is_some (get sessions.old token) }
    ensures later { get sessions.new token
        ≡ option_map (λ s. (min (s.0 + seconds) (2 ^ 64 - 1), s.1)) (get sessions.old token) }
    ensures others { (q : ℕ × ℕ) → q ≢ token → get sessions.new q ≡ get sessions.old q }
{
    let Some((deadline, _)) = sessions.get(token) else {
        return false;
    };
    let later = deadline.saturating_add(seconds);
    sessions.rekey(token, later).is_ok()
}
