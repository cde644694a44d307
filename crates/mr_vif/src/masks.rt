//! Masks of vifs.

ghost use Rattle.std.specs.Prelude.{◌≡◌, ℕ, map, nat_lt, slice_index_or};
ghost use lib.Lanes.{mask_l};
ghost use Rattle.mr_model.specs.Verdict.{is_in};

use core::simd::prelude::*;
use mr_base::Mask;

/// A bit for each threshold that a TTL exceeds.
#[inline(always)]
fn bits_below(ttls: &[u8; 32], ttl: u8) -> u64
    ensures { result ≡ mask_l (map (λ t. nat_lt t ttl) ttls.now) }
{
    u8x32::from_array(*ttls)
        .simd_lt(u8x32::splat(ttl))
        .to_bitmask()
}

/// The vifs whose threshold a TTL exceeds, whether they are there or not.
#[inline(always)]
pub fn sends(ttls: &[u8; 32], ttl: u8) -> Mask
    ensures bits { (i : ℕ) → is_in result i ≡ nat_lt (slice_index_or ttls.now i 255) ttl }
{
    Mask((bits_below(ttls, ttl) & 0xffff_ffff) as u32)
}
