//! Rebuilding the tree in one pass along the list, with a stack of the open runs.

ghost use Rattle.std.specs.Prelude.{◌≡◌, ℕ, ◌-◌, ◌/◌, ◌<◌, ◌≤◌, None, Some, List, [], ◌∷◌, ◌++◌, option_map, length, IsSome, MatchOption};
ghost use Rattle.arrayvec.specs.ArrayVec.{array_vec_len};
ghost use Rattle.ord_tree.specs.Shape.{Shape, walk};
ghost use Rattle.ord_tree.specs.Slots.{Slots, Holds, times, IsOnce};
ghost use Rattle.ord_tree.specs.Node.{indexes};
ghost use Rattle.ord_tree.specs.Numbers.{IsTop};
ghost use Rattle.ord_tree.specs.Half.{half_rank, IsHalf, IsRebuilt};
ghost use Rattle.ord_tree.specs.Rebuild.{IsFew, IsPlan, IsUnopened, IsOpening, IsFinished, IsWaiting, Builds};

use crate::nodes::{Nodes, hang};
use crate::tree_links::{Side, TreeLinks};
use arrayvec::ArrayVec;

/// A run of consecutive entries over which a tree is being built. Its middle entry becomes the root.
#[derive(Clone, Copy, Debug, Default)]
pub struct Frame {
    /// The number of its entries.
    pub len: usize,
    /// The number of its middle entry, once the pass has met that entry.
    pub middle: Option<usize>,
}

/// The frames of the runs around a position in the list, the innermost last. Each run is at most half as long as the one around it, so
/// there are never more frames than the length of the list has binary digits.
pub type Stack = ArrayVec<Frame, 64>;

/// Pushes a frame onto the stack, which isn't full.
fn put(stack: &mut Stack, frame: Frame)
    requires not_full { array_vec_len stack.old < 64 }
    ensures { stack.new.items ≡ stack.old.items ++ frame ∷ [] }
{
    stack.push(frame);
}

/// Returns the rank over a run of `len` entries, if that over a run of five or more is `level`.
pub fn rank_over(len: usize, level: u8) -> u8
    ensures { result ≡ half_rank len level }
{
    match len {
        0 => 0,
        1 => 1,
        2 => 2,
        3 | 4 => 3,
        _ => level,
    }
}

/// Returns the level of the root in a rebuild of `len` entries. From five entries on it is the root's rank.
pub fn top_rank(len: usize) -> u8
    ensures { IsTop len result }
{
    let digits = 64 - len.saturating_sub(2).leading_zeros();
    digits as u8 + 1
}

/// Opens a run: pushes it onto the stack, then its lesser half, and so on down to a run of one entry, which is met next.
pub fn open(stack: &mut Stack, len: usize)
    requires { (at : Slots) × (s : Shape) × (top : ℕ) × (todo : List ℕ) × IsPlan at top s
        × IsOpening at stack.old.items s len todo }
    ensures opened { (at : Slots) (s : Shape) (top : ℕ) (todo : List ℕ) → IsPlan at top s
        → IsOpening at stack.old.items s len todo → IsWaiting at stack.new.items s None todo }
    ensures few { (at : Slots) (s : Shape) (top : ℕ) (todo : List ℕ) → IsPlan at top s
        → IsOpening at stack.old.items s len todo → IsFew stack.new.items s }
{
    let mut rest = len;
    while rest > 0 {
        put(
            stack,
            Frame {
                len: rest,
                middle: None,
            },
        );
        rest /= 2;
    }
}

/// Meets the middle entry of the innermost run, whose lesser side is finished and has the root `lesser`. Takes the run's frame off the
/// stack, and returns it with that entry as its middle.
pub fn meet<N: Nodes>(
    nodes: &mut N,
    stack: &mut Stack,
    top: u8,
    x: N::Inx,
    lesser: Option<N::Inx>,
) -> Frame
    requires { (s : Shape) × (todo : List ℕ) × IsPlan (N.at nodes.old) top s
        × IsWaiting (N.at nodes.old) stack.old.items s
        (option_map N.number lesser) (N.number x ∷ todo) }
    ensures step { Builds top
        (λ s todo. IsWaiting (N.at nodes.old) stack.old.items s
        (option_map N.number lesser) (N.number x ∷ todo))
        (λ s todo. IsUnopened (N.at nodes.new) (stack.new.items ++ result ∷ []) s
        (result.len - result.len / 2 - 1) todo)
        (N.at nodes.old) (N.at nodes.new) (N.list nodes.old) (N.list nodes.new) }
    ensures middle { result.middle ≡ Some (N.number x) }
    ensures bare { option_map (λ n. n.greater) (N.at nodes.new (N.number x)) ≡ Some None }
    ensures some { 0 < result.len }
    ensures fewer { array_vec_len stack.new < array_vec_len stack.old }
    ensures room { array_vec_len stack.new < 64 }
{
    let frame = stack.pop().unwrap();
    let rank = rank_over(frame.len, top.saturating_sub(stack.len() as u8));
    nodes.set_links(
        x,
        TreeLinks {
            back: None,
            lesser,
            greater: None,
            rank,
        },
    );
    hang(nodes, lesser, Some(x));
    Frame {
        middle: Some(nodes.number_of(x)),
        ..frame
    }
}

/// Ends the innermost run, whose middle was met and whose greater side is finished and has the root `greater`. Returns the middle.
pub fn close_one<N: Nodes>(
    nodes: &mut N,
    stack: &mut Stack,
    greater: Option<N::Inx>,
) -> Option<N::Inx>
    requires { (s : Shape) × (top : ℕ) × (todo : List ℕ) × IsPlan (N.at nodes.old) top s
        × IsFinished (N.at nodes.old) stack.old.items s (option_map N.number greater) todo }
    ensures step { (top : ℕ) → Builds top
        (λ s. IsFinished (N.at nodes.old) stack.old.items s (option_map N.number greater))
        (λ s todo. MatchOption result
        (IsWaiting (N.at nodes.new) stack.new.items s (option_map N.number greater) todo)
        (λ m. IsFinished (N.at nodes.new) stack.new.items s (Some (N.number m)) todo))
        (N.at nodes.old) (N.at nodes.new) (N.list nodes.old) (N.list nodes.new) }
    ensures fewer { MatchOption result (stack.new ≡ stack.old)
        (λ m. array_vec_len stack.new < array_vec_len stack.old) }
{
    let found = stack.last()?.middle?;
    stack.pop();
    let middle = nodes.inx_of(found);
    nodes.set_child(middle, Side::Greater, greater);
    hang(nodes, greater, Some(middle));
    Some(middle)
}

/// Ends each finished run, from the innermost on, whose greater side has the root `greater`. Returns the root of the next entry's lesser
/// side, or the tree's root.
pub fn close<N: Nodes>(nodes: &mut N, stack: &mut Stack, greater: Option<N::Inx>) -> Option<N::Inx>
    requires { (s : Shape) × (top : ℕ) × (todo : List ℕ) × IsPlan (N.at nodes.old) top s
        × IsFinished (N.at nodes.old) stack.old.items s (option_map N.number greater) todo }
    ensures step { (top : ℕ) → Builds top
        (λ s. IsFinished (N.at nodes.old) stack.old.items s (option_map N.number greater))
        (λ s. IsWaiting (N.at nodes.new) stack.new.items s (option_map N.number result))
        (N.at nodes.old) (N.at nodes.new) (N.list nodes.old) (N.list nodes.new) }
    ensures few { array_vec_len stack.new ≤ array_vec_len stack.old }
{
    let mut finished = greater;
    while let Some(middle) = close_one(nodes, stack, finished) {
        finished = Some(middle);
    }
    finished
}

/// Does one step of a rebuild, at the next entry. Returns the root of the lesser side of the entry after it, or the tree's root.
pub fn pass<N: Nodes>(
    nodes: &mut N,
    stack: &mut Stack,
    top: u8,
    x: N::Inx,
    lesser: Option<N::Inx>,
) -> Option<N::Inx>
    requires { (s : Shape) × (todo : List ℕ) × IsPlan (N.at nodes.old) top s
        × IsWaiting (N.at nodes.old) stack.old.items s
        (option_map N.number lesser) (N.number x ∷ todo) }
    ensures step { Builds top
        (λ s todo. IsWaiting (N.at nodes.old) stack.old.items s
        (option_map N.number lesser) (N.number x ∷ todo))
        (λ s. IsWaiting (N.at nodes.new) stack.new.items s (option_map N.number result))
        (N.at nodes.old) (N.at nodes.new) (N.list nodes.old) (N.list nodes.new) }
    ensures few { (s : Shape) (todo : List ℕ) → IsPlan (N.at nodes.old) top s
        → IsWaiting (N.at nodes.old) stack.old.items s
        (option_map N.number lesser) (N.number x ∷ todo)
        → IsFew stack.new.items s }
{
    let met = meet(nodes, stack, top, x, lesser);
    let rest = met.len - met.len / 2 - 1;
    if rest == 0 {
        // It has no greater side, so its frame isn't put back.
        return close(nodes, stack, Some(x));
    }
    put(stack, met);
    open(stack, rest);
    None
}

/// Rebuilds the tree over the list, whatever the links are, and returns the root.
///
/// Each entry is met once, in order. Takes no memory.
pub fn rebuild<N: Nodes>(nodes: &mut N, len: usize) -> Option<N::Inx>
    requires len { len ≡ length (indexes (N.list nodes.old).entries) }
    requires once { IsOnce (indexes (N.list nodes.old).entries) }
    requires there { (j : ℕ) → 0 < times j (indexes (N.list nodes.old).entries)
        → IsSome (N.at nodes.old j) }
    ensures rebuilt { (s : Shape) × (walk s ≡ indexes (N.list nodes.old).entries) × IsRebuilt s
        × Holds (N.at nodes.new) None (option_map N.number result) s }
    ensures kept { N.list nodes.new ≡ N.list nodes.old }
{
    let top = top_rank(len);
    let mut stack = ArrayVec::new();
    open(&mut stack, len);
    let mut finished = None;
    let mut target = nodes.first();
    for _ in 0..len {
        let x = target.unwrap();
        target = nodes.next(x);
        finished = pass(nodes, &mut stack, top, x, finished);
    }
    finished
}
