//! Laws of listings. A function here does nothing, and its contract is the law: a fact about every run of calls.

ghost use Rattle.listing.specs.Steps.{EndedPointerLaw, KeptPointerLaw};

/// A pointer that has ended names nothing again, however many calls follow, until the generations begin again.
///
/// A pointer has ended if it names nothing and its generation is below the listing's. If no pointer has a generation above the listing's, a
/// pointer that names an item before a call and none after it has ended. Every call that changes a listing is a step.
pub fn ended_pointer_law<T>()
    ensures { EndedPointerLaw T }
{}

/// A pointer that names an item names the same item after any number of calls to other entries.
///
/// A call is to other entries if it keeps every pointer, as an insertion does, or changes what another pointer names alone, as a removal or
/// a new key does.
pub fn kept_pointer_law<T>()
    ensures { KeptPointerLaw T }
{}
