//! One slot of an arena.
ghost use Rattle.std.specs.Prelude.{◌≡◌, is_none, IsSome, Some};
ghost use Rattle.std.specs.Option.{option_map};
ghost use Rattle.std.specs.Borrow.{sem, Lends};

use std::mem::{replace, size_of};

/// An entry with its generation, or nothing. The generation comes first: one of 32 bits fits into the word of the variant's tag.
#[doc(hidden)]
#[derive(Drop)]
pub enum Slot<T, G> {
    Occupied(G, T),
    Vacant,
}

// With an item and a generation of a word each, a slot takes three words; with a generation of half a word, two.
const _: () = prove!(size_of::<Slot<u64, u64>>() <= 24);

const _: () = prove!(size_of::<Slot<u64, u32>>() <= 16);

impl<T, G> Slot<T, G> {
    ghost use Rattle.arena_base.specs.Slot.{slot_entry, with_slot_item, with_slot_generation};
    ghost use Rattle.arena_base.specs.contracts.slot.Slot.{the_row};

    // Whether there is no entry.
    pub(crate) fn is_vacant(&self) -> bool
        ensures { result ≡ is_none (slot_entry self.now) }
    {
        match self {
            Slot::Occupied(_, _) => false,
            Slot::Vacant => true,
        }
    }

    // Takes out the entry, if any, with its generation.
    pub(crate) fn vacate(&mut self) -> Option<(G, T)>
        ensures value { result ≡ slot_entry self.old }
        ensures after { self.new ≡ Slot.Vacant }
    {
        match replace(self, Slot::Vacant) {
            Slot::Occupied(generation, item) => Some((generation, item)),
            Slot::Vacant => None,
        }
    }

    // Puts an entry into a vacant slot.
    pub(crate) fn fill(&mut self, item: T, generation: G)
        requires { self.old ≡ Slot.Vacant }
        ensures { self.new ≡ Slot.Occupied generation item }
    {
        match replace(self, Slot::Occupied(generation, item)) {
            Slot::Vacant => {}
            Slot::Occupied(_, _) => unreachable!(),
        }
    }

    // The item of the entry, for writing.
    pub(crate) fn item_mut(&mut self) -> &mut T
        requires { IsSome (slot_entry self.old) }
        ensures* writes_back { sem 𝓛
            (Lends (the_row T.row G.row) T.row self.entry result (with_slot_item self.old)) }
        ensures value { option_map (λ e. e.1) (slot_entry self.old) ≡ Some result.now }
    {
        match self {
            Slot::Occupied(_, item) => item,
            Slot::Vacant => unreachable!(),
        }
    }

    // The generation of the entry.
    pub(crate) fn generation(&self) -> G
    where
        G: Copy,
        requires { IsSome (slot_entry self.now) }
        ensures { option_map (λ e. e.0) (slot_entry self.now) ≡ Some result }
    {
        match self {
            Slot::Occupied(generation, _) => *generation,
            Slot::Vacant => unreachable!(),
        }
    }

    // Gives the entry another generation.
    pub(crate) fn renew(&mut self, generation: G)
    where
        G: Copy,
        ensures { self.new ≡ with_slot_generation self.old generation }
    {
        if let Slot::Occupied(old, _) = self {
            *old = generation;
        }
    }
}
