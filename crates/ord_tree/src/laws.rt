//! The laws of balance. Each function here does nothing; its contract is a law, a fact about every shape, whichever calls made it.

ghost use Rattle.ord_tree.specs.Laws.{HeightLaw, RankSquareLaw, RankLaw, TightRankLaw, RebuiltRanksLaw, RebuiltHeightLaw, RebuiltExistsLaw, DigitsExistLaw};

/// Under the rank rules, no path down has more nodes than the root's rank.
pub fn height_law()
    ensures { HeightLaw }
{}

/// Under the rank rules, a tree of n nodes, n > 0, and rank R has `2^(R+1) <= (n+1)^2`. The least size of a tree of rank r is s(1) = 1,
/// s(2) = 2, s(r) = 1 + 2 s(r-2).
pub fn rank_square_law()
    ensures { RankSquareLaw }
{}

/// Under the rank rules, no rank exceeds 126 if the number of nodes is less than the greatest `u64`. Pointers can't name more entries
/// than that, since one index names no entry.
pub fn rank_law()
    ensures { RankLaw }
{}

/// A tight tree of n nodes and rank R has `fib(R+2) <= n+1`.
pub fn tight_rank_law()
    ensures { TightRankLaw }
{}

/// A rebuilt tree obeys the rank rules.
pub fn rebuilt_ranks_law()
    ensures { RebuiltRanksLaw }
{}

/// The longest path down in a rebuilt tree of n nodes has as many nodes as n has binary digits.
pub fn rebuilt_height_law()
    ensures { RebuiltHeightLaw }
{}

/// Every list of indexes is the in-order traversal of a rebuilt tree.
pub fn rebuilt_exists_law()
    ensures { RebuiltExistsLaw }
{}

/// Every number has a number of binary digits.
pub fn digits_exist_law()
    ensures { DigitsExistLaw }
{}
