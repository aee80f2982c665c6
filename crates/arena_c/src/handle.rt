//! `Handle`: what C keeps between two calls.

ghost use Rattle.std.specs.Prelude.{◌≡◌, Some, None, is_some};
ghost use Rattle.std.specs.Option.{option_map};
ghost use Rattle.arena_c.specs.Answer.{found_status, found_or};

use crate::content::Content;
use crate::slot::Slot;
use crate::status::{NOT_FOUND, OK};
use std::alloc::Global;
use std::mem;

/// Open, it owns an arena; closed, it owns nothing. All bytes zero are a closed handle.
///
/// In contracts `slot.held` is the arena that it owns, if any. A handle can't be dropped, so no arena is lost with it.
#[repr(C)]
pub struct Handle {
    pub is_open: bool,
    pub slot: Slot,
    ghost agrees: { is_open ≡ is_some slot.held },
}

impl Handle {
    /// Returns whether the handle owns an arena.
    pub fn is_open(&self) -> bool
        ensures { result ≡ is_some self.now.slot.held }
    {
        self.is_open
    }

    /// Takes the arena out, if the handle is open, and leaves the handle closed.
    pub fn take(&mut self, alloc: Global) -> Option<Box<Content>>
        ensures taken { option_map (λ b. b.value) result ≡ self.old.slot.held }
        ensures closed { self.new.slot.held ≡ None }
    {
        let closed = Handle {
            is_open: false,
            slot: Slot::empty(alloc),
        };
        let Handle { is_open, slot } = mem::replace(self, closed);
        if is_open {
            Some(slot.into_box())
        } else {
            slot.discard();
            None
        }
    }

    /// Opens a closed handle with this arena.
    pub fn put(&mut self, content: Box<Content>)
        requires { self.old.slot.held ≡ None }
        ensures { self.new.slot.held ≡ Some content.value }
    {
        let open = Handle {
            is_open: true,
            slot: Slot::full(content),
        };
        let Handle { is_open: _, slot } = mem::replace(self, open);
        slot.discard();
    }

    /// Puts the arena back, writes what a call found in it, if anything, and returns the status of the call.
    pub fn answer<X: Copy>(&mut self, content: Box<Content>, found: Option<X>, out: &mut X) -> u8
        requires { self.old.slot.held ≡ None }
        ensures arena { self.new.slot.held ≡ Some content.value }
        ensures status { result ≡ found_status found }
        ensures written { out.new ≡ found_or out.old found }
    {
        self.put(content);
        match found {
            Some(x) => {
                *out = x;
                OK
            }
            None => NOT_FOUND,
        }
    }
}
