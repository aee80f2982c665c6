//! `MapTaken`: what an item becomes when its entry moves into another arena.
ghost use Rattle.arena_base.specs.declared.invalidation.InvalidationOption.{InvalidationOption as Taken};

use arena_base::{BasePtr, Calls, InvalidationOption};

/// Makes a new item from an entry's old pointer, its item with the result of its removal, and its new pointer, as a closure `FnMut(Q,
/// InvalidationOption<U>, P) -> T` does.
///
/// A container over a chain implements it anew, and passes the inner items on to its caller's implementation.
pub trait MapTaken<Q: BasePtr, U, P: BasePtr, T> {
    // It may be called.
    ghost callable: { Self → Type 0 };

    // A call in this state, with these arguments, may return this item and leave this state.
    ghost step: { Self → Q → Taken U → P → T → Self → Type 0 };

    /// Returns the item of the new entry.
    fn map_taken(&mut self, old: Q, taken: InvalidationOption<U>, new: P) -> T
        requires { callable self.old }
        ensures step { step self.old old taken new result self.new }
        ensures callable { callable self.new };
}

impl<Q: BasePtr, U, P: BasePtr, T, F: FnMut(Q, InvalidationOption<U>, P) -> T> MapTaken<Q, U, P, T>
    for Calls<F> {
    ghost callable = { λ c. F.IsAlwaysCallable c.f };

    ghost step = { λ c old taken new answer d. F.step c.f old taken new answer d.f };

    fn map_taken(&mut self, old: Q, taken: InvalidationOption<U>, new: P) -> T
        requires { F.IsAlwaysCallable self.old.f }
        ensures step { F.step self.old.f old taken new result self.new.f }
        ensures callable { F.IsAlwaysCallable self.new.f }
    {
        (self.f)(old, taken, new)
    }
}
