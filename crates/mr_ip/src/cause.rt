//! The first cause for which bytes do not begin with an accepted head.
ghost use Rattle.std.specs.Prelude.{◌≡◌, None, length, ◌≤◌};
ghost use Rattle.mr_base.specs.Heads as heads;

use crate::address::{is_bad_source, is_link_local, is_multicast};
use crate::fields::{four_at, head_length, two_at};
use crate::sum::ones_sum;
use mr_base::{Addr, HeadError};

/// The first cause, in the order of `HeadError`, for which these bytes do not begin with an
/// accepted head (RFC 791 section 3.1, the checksum by RFC 1071). It takes no memory.
#[tactic(auto, unfolding(mr_base::specs::Heads::cause_in))]
pub fn cause_of(bytes: &[u8]) -> Option<HeadError>
    ensures cause { result ≡ heads.cause_of bytes.now }
    ensures enough { result ≡ None → 20 ≤ length bytes.now }
{
    if bytes.len() < 20 {
        return Some(HeadError::Short);
    }
    if bytes[0] / 16 != 4 {
        return Some(HeadError::Version);
    }
    let head = head_length(bytes);
    if head < 20 || bytes.len() < head {
        return Some(HeadError::HeaderLength);
    }
    if ones_sum(&bytes[..head]) != 0xFFFF {
        return Some(HeadError::Checksum);
    }
    let total = usize::from(two_at(bytes, 2));
    if total < head || bytes.len() < total {
        return Some(HeadError::TotalLength);
    }
    let dst = Addr(four_at(bytes, 16));
    if !is_multicast(dst) {
        return Some(HeadError::NotMulticast);
    }
    if is_link_local(dst) {
        return Some(HeadError::LinkLocal);
    }
    if is_bad_source(Addr(four_at(bytes, 12))) {
        return Some(HeadError::BadSource);
    }
    None
}
