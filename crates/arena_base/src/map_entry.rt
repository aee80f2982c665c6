//! `MapEntry`: what an item becomes when its entry gets a new pointer.
ghost use Rattle.std.specs.Prelude.{◌≡◌};

use crate::ptr::BasePtr;

/// Makes an entry's new item from its old pointer, its item and its new pointer, as a closure `FnMut(P, T, P) -> T` does.
///
/// A container over an arena implements it anew, and passes the inner item on to its caller's implementation.
pub trait MapEntry<P: BasePtr, T> {
    // It may be called.
    ghost callable: { Self → Type 0 };

    // A call in this state, with these arguments, may return this item and leave this state.
    ghost step: { Self → P → T → P → T → Self → Type 0 };

    /// Returns the new item of the entry.
    fn map_entry(&mut self, old: P, item: T, new: P) -> T
        requires { callable self.old }
        ensures step { step self.old old item new result self.new }
        ensures callable { callable self.new };
}

/// A closure that makes new items.
#[derive(Drop)]
pub struct Calls<F> {
    pub f: F,
}

impl<P: BasePtr, T, F: FnMut(P, T, P) -> T> MapEntry<P, T> for Calls<F> {
    ghost callable = { λ c. F.IsAlwaysCallable c.f };

    ghost step = { λ c old item new answer d. F.step c.f old item new answer d.f };

    fn map_entry(&mut self, old: P, item: T, new: P) -> T {
        (self.f)(old, item, new)
    }
}
