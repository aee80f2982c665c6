//! Logarithms of whole numbers, for axes.

/// Returns the binary logarithm of a number in parts of 256: 0 for 0.
pub fn log2(number: u64) -> u64 {
    if number == 0 {
        return 0;
    }
    let whole = 63u32.saturating_sub(number.leading_zeros());
    // the number by a power of two, from 2^31 until before 2^32
    let mut scaled = match whole.checked_sub(31) {
        Some(places) => number.checked_shr(places).unwrap_or(0),
        None => number.checked_shl(31u32.saturating_sub(whole)).unwrap_or(0),
    };
    let mut parts = u64::from(whole);
    for _ in 0..8 {
        scaled = scaled.wrapping_mul(scaled) >> 31;
        parts = parts.wrapping_mul(2);
        if scaled >= 1 << 32 {
            scaled >>= 1;
            parts = parts.wrapping_add(1);
        }
    }
    parts
}
