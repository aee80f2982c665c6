//! The names of a row's entries: the indexes of their slots, in their order.
ghost use Rattle.std.specs.Prelude.{◌≡◌, ◌+◌, ◌-◌, ◌≤◌, ◌<◌, ◌^◌, ◌++◌, ◌∷◌, ℕ, true, false, length, take, drop, reverse};
ghost use Rattle.std.specs.List.{HoldsAt, AllWithin};

use crate::ROW;

/// Returns one more than the index of a name; 0 if it is absent. It occurs at most once. All names are compared, without a branch.
#[inline(always)]
pub(crate) fn place<I: Copy + Eq>(names: &[I], name: I) -> usize
    requires few { length names.now < 2 ^ 16 }
    requires once { (i j : ℕ) → i < length names.now → j < length names.now
        → HoldsAt (λ y. I.PartialEq.eq y name ≡ true) names.now i
        → HoldsAt (λ y. I.PartialEq.eq y name ≡ true) names.now j → i ≡ j }
    ensures within { result ≤ length names.now }
    ensures found { 0 < result → HoldsAt (λ y. I.PartialEq.eq y name ≡ true) names.now (result - 1) }
    ensures none { result ≡ 0 → AllWithin (λ y. I.PartialEq.eq y name ≡ false) names.now 0 (length names.now) }
{
    let mut place = 0u32;
    for i in 0..names.len() {
        place += if names[i] == name { i as u32 + 1 } else { 0 };
    }
    place as usize
}

/// Inserts a name at an index. It always moves `ROW` names up by one, so the move needs no loop.
#[inline(always)]
pub(crate) fn shift_in<I: Copy>(names: &mut [I], at: usize, name: I)
    requires { at + 32 ≤ length names.old }
    ensures { names.new ≡ take at names.old ++ name ∷ take 31 (drop at names.old)
        ++ drop (at + 32) names.old }
{
    let tail = &mut names[at..at + ROW + 1];
    tail.copy_within(0..ROW, 1);
    tail[0] = name;
}

/// Removes and returns the name at an index, and moves `ROW` names down by one.
#[inline(always)]
pub(crate) fn shift_out<I: Copy>(names: &mut [I], at: usize) -> I
    requires { at + 32 ≤ length names.old }
    ensures name { HoldsAt (λ y. y ≡ result) names.old at }
    ensures names { names.new ≡ take at names.old ++ take 31 (drop (at + 1) names.old)
        ++ drop (at + 31) names.old }
{
    let tail = &mut names[at..at + ROW + 1];
    let name = tail[0];
    tail.copy_within(1..ROW + 1, 0);
    name
}

// Reverses the names before an index.
pub(crate) fn turn_front<I>(names: &mut [I], n: usize)
    requires { n ≤ length names.old }
    ensures { names.new ≡ reverse (take n names.old) ++ drop n names.old }
{
    let front = &mut names[..n];
    front.reverse();
}
