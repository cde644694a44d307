//! Bytes compared at once.

ghost use Rattle.std.specs.Prelude.{◌≡◌, ℕ, ◌≤◌, take};

use core::simd::prelude::*;

/// Up to which index two rows are the same: that of the first bytes that differ, or more than 31
/// where none do.
#[inline(always)]
pub fn same_bytes(a: &[u8; 32], b: &[u8; 32]) -> usize
    ensures { (k : ℕ) → k ≤ 32 → k ≤ result → take k a.now ≡ take k b.now }
{
    let differ = u8x32::from_array(*a)
        .simd_ne(u8x32::from_array(*b))
        .to_bitmask();
    differ.trailing_zeros() as usize
}
