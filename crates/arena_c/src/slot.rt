//! `Slot`: the address of a box that it owns, or of nothing.

ghost use Rattle.std.specs.Prelude.{◌≡◌, Option, Some, None, is_some, true};
ghost use Rattle.arena_c.specs.Slot.{Held, slot_owns, held_coded};

use crate::content::Content;
use crate::deed::Deed;
use std::alloc::Global;
use std::marker::Model;
use std::ptr::null_mut;

/// Owns a box, or nothing. It can't be dropped, so no value is lost with it.
#[repr(C)]
pub struct Slot {
    at: *mut u8,
    alloc: Global,
    pub ghost held: { Option Held } by { held_coded },
}

impl Model for Slot {
    ghost also_owns = { λ s. slot_owns s.alloc s.at s.held };
}

unsafe impl Send for Slot {}

impl Slot {
    /// A slot that owns nothing.
    pub fn empty(alloc: Global) -> Slot
        ensures { result.held ≡ None }
    {
        let at = null_mut();
        Slot { at, alloc }
    }

    /// A slot that owns this box.
    pub fn full(boxed: Box<Content>) -> Slot
        ensures { result.held ≡ Some boxed.value }
    {
        Slot::of_deed(Deed::of(boxed))
    }

    /// Takes the box out.
    pub fn into_box(self) -> Box<Content>
        requires { is_some self.held ≡ true }
        ensures { self.held ≡ Some result.value }
    {
        self.into_deed().into_box()
    }

    /// Gives up a slot that owns nothing.
    pub fn discard(self)
        requires { self.held ≡ None }
    {
        let Slot { at: _, alloc: _ } = self;
    }

    fn of_deed(deed: Deed<Content, Global>) -> Slot
        ensures { result.held ≡ Some deed.value }
    {
        let Deed { at, alloc } = deed;
        let at = at as *mut u8;
        Slot { at, alloc }
    }

    fn into_deed(self) -> Deed<Content, Global>
        requires { is_some self.held ≡ true }
        ensures { self.held ≡ Some result.value }
    {
        let Slot { at, alloc } = self;
        let at = at as *mut Content;
        Deed { at, alloc }
    }
}
