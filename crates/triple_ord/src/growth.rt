//! How an insertion gets its slot.

/// Whether an insertion stays within the capacity, or grows if no slot is vacant.
#[derive(Clone, Copy, Debug)]
pub enum Growth {
    /// It takes a vacant slot, or is refused.
    Within,
    /// It makes room first if no slot is vacant.
    Reallocating,
}
