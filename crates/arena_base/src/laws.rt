//! The laws of every arena as a finite map: a call on one pointer doesn't change what every other pointer finds.
ghost use Rattle.std.specs.Prelude.{◌≡◌, ◌≢◌, ◌⊎◌, ℕ, IsTrue, true, Some, None, is_some, IsSome, IfSome, IfNone, OnOk, OnErr, length, if◌then◌else◌};
ghost use Rattle.arena_base.specs.Arena.{item_of, ChangesOnly, FindSame};
ghost use Rattle.arena_base.specs.Generation.{next_generation};
ghost use Rattle.arena_base.specs.Walk.{pointers, times_named};

use crate::error::ReallocationError;
use crate::ptr::BasePtr;
use crate::traits::{ArenaCloneFromWith, ArenaTrait};

/// Creates an empty arena. No pointer names anything in it.
pub fn make<P: BasePtr, T, A: ArenaTrait<P, T>>(alloc: A::Alloc) -> A
    ensures { (p : ℕ × ℕ) → item_of (A.content result) p ≡ None }
{
    A::new(alloc)
}

/// Returns how many pointers name something. The list of these pointers has each of them once, and no other.
pub fn count<P: BasePtr, T, A: ArenaTrait<P, T>>(arena: &A) -> usize
    ensures count { result ≡ length (pointers (A.content arena.now)) }
    ensures named { (p : ℕ × ℕ) → times_named p (pointers (A.content arena.now))
        ≡ (if is_some (item_of (A.content arena.now) p) then 1 else 0) }
{
    arena.len()
}

/// At most one pointer of an index names something.
pub fn one_pointer<P: BasePtr, T, A: ArenaTrait<P, T>>(arena: &A)
    ensures { (p q : ℕ × ℕ) → IsSome (item_of (A.content arena.now) p)
        → IsSome (item_of (A.content arena.now) q) → p.0 ≡ q.0 → p.1 ≡ q.1 }
{}

/// Removes and returns what `p` names. Afterwards `p` names nothing. If `p` is stale, nothing changes.
pub fn take<P: BasePtr, T, A: ArenaTrait<P, T>>(arena: &mut A, p: P) -> Option<T>
    ensures taken { result ≡ item_of (A.content arena.old) (P.numbers p) }
    ensures gone { item_of (A.content arena.new) (P.numbers p) ≡ None }
    ensures only { ChangesOnly (P.numbers p) (is_some result)
        (A.content arena.old) (A.content arena.new) }
{
    arena.remove(p).allow()
}

/// Replaces the item of `p` with `item` and drops the old one. Returns whether `p` named an item; if not, nothing changes.
pub fn put<P: BasePtr, T: Drop, A: ArenaTrait<P, T>>(arena: &mut A, p: P, item: T) -> bool
    ensures found { result ≡ is_some (item_of (A.content arena.old) (P.numbers p)) }
    ensures written { IsTrue result → item_of (A.content arena.new) (P.numbers p) ≡ Some item }
    ensures only { ChangesOnly (P.numbers p) result (A.content arena.old) (A.content arena.new) }
{
    if !arena.contains(p) {
        return false;
    }
    let pair = arena.pair_mut(p.inx());
    let target = pair.1;
    *target = item;
    true
}

/// Gives the entry of `p` a new pointer, with the same index and the raised generation. If `p` is stale, nothing changes.
///
/// Afterwards the old pointer names nothing, unless the raised generation is its own, as it always is for the type `()`.
pub fn renew<P: BasePtr, T, A: ArenaTrait<P, T>>(arena: &mut A, p: P) -> Option<P>
    ensures found { is_some result ≡ is_some (item_of (A.content arena.old) (P.numbers p)) }
    ensures index { IfSome result (λ q. (P.numbers q).0 ≡ (P.numbers p).0) }
    ensures generation { IfSome result
        (λ q. (P.numbers q).1 ≡ next_generation P.Gen.greatest (A.content arena.old).generation) }
    ensures kept { IfSome result (λ q. item_of (A.content arena.new) (P.numbers q)
        ≡ item_of (A.content arena.old) (P.numbers p)) }
    ensures ended { IfSome result (λ q. (P.numbers q).1 ≢ (P.numbers p).1
        → item_of (A.content arena.new) (P.numbers p) ≡ None) }
    ensures others { IfSome result (λ q. (r : ℕ × ℕ)
        → (r.0 ≢ (P.numbers p).0) ⊎ ((r.1 ≢ (P.numbers p).1) × (r.1 ≢ (P.numbers q).1))
        → item_of (A.content arena.new) r ≡ item_of (A.content arena.old) r) }
    ensures nothing { IfNone result (FindSame (A.content arena.new) (A.content arena.old)) }
{
    arena.invalidate(p).allow()
}

/// Drops all entries. Afterwards no pointer names anything.
pub fn empty<P: BasePtr, T: Drop, A: ArenaTrait<P, T>>(arena: &mut A)
    ensures { (p : ℕ × ℕ) → item_of (A.content arena.new) p ≡ None }
{
    let _ = arena.clear();
}

/// Copies the source into another arena, whose own entries are dropped. Afterwards every pointer finds in it what it finds in the source.
/// On `Err`, nothing changes.
pub fn copy<P: BasePtr, T: Copy + Drop, S: ArenaTrait<P, T>, A: ArenaCloneFromWith<P, T>>(
    source: &S,
    arena: &mut A,
) -> Result<(), ReallocationError>
    ensures found { OnOk result (FindSame (A.content arena.new) (S.content source.now)) }
    ensures nothing { OnErr result (FindSame (A.content arena.new) (A.content arena.old)) }
{
    arena.clone_from_with(source, |_p, item| *item)
}
