//! Stretches of time, with and without a value.

/// A stretch of time over which one value holds, cut to the time that was asked for.
#[derive(Clone, Copy, PartialEq, Eq, Debug)]
pub struct Span<V> {
    /// The first time of the span.
    pub from: u64,
    /// The first time after it.
    pub until: u64,
    /// The value throughout.
    pub value: V,
}

/// A whole stretch of time over which one value holds.
#[derive(Clone, Copy, PartialEq, Eq, Debug)]
pub struct WholeSpan<V> {
    /// The time at which the value begins.
    pub from: u64,
    /// The next change; `None` if the value holds for ever.
    pub until: Option<u64>,
    /// The value throughout.
    pub value: V,
}

/// A stretch of time without a value, cut to the time that was asked for.
#[derive(Clone, Copy, PartialEq, Eq, Debug)]
pub struct Gap {
    /// The first time of the gap.
    pub from: u64,
    /// The first time after it.
    pub until: u64,
}
