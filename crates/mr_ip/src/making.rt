//! A head made for a packet.
ghost use Rattle.std.specs.Prelude.{◌≡◌, ◌≤◌, true, false};
ghost use Rattle.mr_base.specs.Heads as heads;
ghost use Rattle.mr_ip.specs.MadeHeads.{unsummed_head, made_head};

use crate::sum::ones_sum;
use mr_base::{Addr, Few, Head};

/// The bytes of a head with zeros in the checksum's place.
#[tactic(auto, unfolding(crate::specs::MadeHeads::unsummed_head))]
fn unsummed_head(ident: u16, ttl: u8, src: Addr, dst: Addr, length: u16) -> [u8; 20]
    ensures { result ≡ unsummed_head ident ttl src.0 dst.0 length }
{
    let [i, d] = ident.to_be_bytes();
    let [l, n] = length.to_be_bytes();
    let [s, t, u, v] = src.0.to_be_bytes();
    let [w, x, y, z] = dst.0.to_be_bytes();
    [
        0x45, 0, l, n, i, d, 0, 0, ttl, 17, 0, 0, s, t, u, v, w, x, y, z,
    ]
}

/// The head of 20 bytes of a UDP packet (RFC 791 section 3.1): protocol 17, type of service 0, no
/// flags, the first fragment, and the checksum of RFC 1071. The length is the whole packet's, in
/// bytes. `is_bad_source`, `is_multicast` and `is_link_local` test the addresses. It takes no
/// memory.
pub fn make_head(ident: u16, ttl: u8, src: Addr, dst: Addr, length: u16) -> Head
    requires holds_head { 20 ≤ length }
    requires source { heads.is_bad_source src.0 ≡ false }
    requires multicast { heads.is_multicast dst.0 ≡ true }
    requires forwarded { heads.is_link_local dst.0 ≡ false }
    ensures bytes { result.bytes ≡ made_head ident ttl src.0 dst.0 length }
    ensures length { result.length ≡ length }
    ensures ttl { result.ttl ≡ ttl }
    ensures src { result.src ≡ src }
    ensures dst { result.dst ≡ dst }
{
    let mut bytes = unsummed_head(ident, ttl, src, dst, length);
    let checksum = 0xFFFF - ones_sum(&bytes);
    bytes[10] = (checksum / 256) as u8;
    bytes[11] = (checksum % 256) as u8;
    Head {
        bytes: Few::from_slice(&bytes),
        length,
        ttl,
        src,
        dst,
    }
}
