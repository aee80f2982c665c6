//! `OrdEntryKind`: whether an entry is new or replaces another's item.
ghost use Rattle.std.specs.Prelude.{◌≡◌};
ghost use Rattle.triple_ord.specs.EntryKind.{pointer_of_kind};

/// The pointer of an entry, and whether an insertion creates the entry or replaces its item.
#[derive(Debug, Clone, Copy, PartialEq, Eq)]
pub enum OrdEntryKind<P> {
    /// The entry is new.
    New(P),
    /// The entry exists, and its item is replaced.
    Replacing(P),
}

impl<P> OrdEntryKind<P> {
    /// Returns the pointer, whichever it is.
    pub fn any(self) -> P
        ensures { result ≡ pointer_of_kind self }
    {
        match self {
            OrdEntryKind::New(p) => p,
            OrdEntryKind::Replacing(p) => p,
        }
    }
}
