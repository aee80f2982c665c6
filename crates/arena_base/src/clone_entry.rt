//! `CloneEntry`: what makes the item of a clone from the item of an entry.
ghost use Rattle.std.specs.Prelude.{◌≡◌, Result, MatchResult};
ghost use Rattle.std.specs.declared.alloc.AllocError.{AllocError};
ghost use Rattle.arena_base.specs.Clone.{IsShown};

use crate::map_entry::Calls;
use crate::ptr::BasePtr;
use std::alloc::AllocError;

/// Makes an item from an entry's pointer and a reference to its item, as a closure `FnMut(P, &U) -> Result<T, AllocError>` does.
///
/// A container over an arena implements it anew, and passes the inner item on to its caller's implementation.
pub trait CloneEntry<P: BasePtr, U, T> {
    // It may be called.
    ghost callable: { Self → Type 0 };

    // A call in this state, with this pointer and this item, may return this and leave this state.
    ghost step: { Self → P → U → Result T AllocError → Self → Type 0 };

    /// Returns the item of the entry's clone, or `AllocError` if memory for it is refused.
    fn clone_entry(&mut self, p: P, item: &U) -> Result<T, AllocError>
        requires { callable self.old }
        ensures step { step self.old p item.now result self.new }
        ensures callable { callable self.new };
}

impl<P: BasePtr, U, T, F: FnMut(P, &U) -> T> CloneEntry<P, U, T> for Calls<F> {
    ghost callable = { λ c. F.IsAlwaysCallable c.f };

    ghost step = { λ c p item answer d.
        MatchResult answer (λ made. IsShown F.step c.f p item made d.f) (λ refusal. ⊥) };

    fn clone_entry(&mut self, p: P, item: &U) -> Result<T, AllocError> {
        Ok((self.f)(p, item))
    }
}

/// A closure that makes the items of a clone, and may be refused memory.
#[derive(Drop)]
pub struct TryCalls<F> {
    pub f: F,
}

impl<P: BasePtr, U, T, F: FnMut(P, &U) -> Result<T, AllocError>> CloneEntry<P, U, T>
    for TryCalls<F> {
    ghost callable = { λ c. F.IsAlwaysCallable c.f };

    ghost step = { λ c p item answer d. IsShown F.step c.f p item answer d.f };

    fn clone_entry(&mut self, p: P, item: &U) -> Result<T, AllocError> {
        (self.f)(p, item)
    }
}
