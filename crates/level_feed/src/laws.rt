//! Laws of updates. The function here does nothing, and its contract is the law.

ghost use Rattle.level_feed.specs.Feed.{FollowingLaw};

/// Updates can be published in parts: if some lead from one moment of a book to a second one, and others from there to a third one, then both
/// lists, one behind the other, lead from the first moment to the third. No updates lead from a book to itself.
pub fn following_law<T>()
    ensures { FollowingLaw T }
{}
