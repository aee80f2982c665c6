//! `Deed`: a box taken apart into its address and its allocator.

ghost use Rattle.std.specs.Prelude.{◌≡◌};
ghost use Rattle.std.specs.Box.Ownership.{box_owns};

use std::alloc::Allocator;
use std::marker::Model;

/// Owns what a box owns.
pub struct Deed<T, A: Allocator> {
    pub at: *mut T,
    pub alloc: A,
    pub ghost value: { T },
}

impl<T, A: Allocator> Model for Deed<T, A> {
    ghost also_owns = { λ d. box_owns (A.dealloc_token d.alloc) T.row d.at d.value };
}

impl<T, A: Allocator> Deed<T, A> {
    /// Takes a box apart.
    pub fn of(boxed: Box<T, A>) -> Deed<T, A>
    where
        T: Drop,
        ensures { result.value ≡ boxed.value }
    {
        let (at, alloc) = Box::into_raw_with_allocator(boxed);
        Deed { at, alloc }
    }

    /// Makes the box again.
    pub fn into_box(self) -> Box<T, A>
        ensures { result.value ≡ self.value }
    {
        let Deed { at, alloc } = self;
        unsafe { Box::from_raw(alloc, at) }
    }
}
