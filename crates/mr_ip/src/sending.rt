//! The head with which a packet is sent on.
ghost use Rattle.std.specs.Prelude.{◌≡◌, ◌+◌, ◌≤◌, length, slice_index};
ghost use Rattle.mr_base.specs.Heads.{ones_sum, sent};
ghost use Rattle.mr_ip.specs.Sums.{lowered, raised};

use crate::fields::two_at;
use mr_base::{Few, Head};

/// The checksum of a head whose TTL is one less (RFC 1141, and RFC 1624 for the one checksum that
/// zero stands for): 0x0100 more, the carry added at the low end.
fn raised(checksum: u16) -> u16
    ensures { result ≡ raised checksum }
{
    let sum = u32::from(checksum) + 0x0100;
    let sum = if sum > 0xFFFF { sum - 0xFFFF } else { sum };
    if sum == 0xFFFF { 0 } else { sum as u16 }
}

/// The bytes of a head with the TTL one less and the checksum raised, which is the checksum from
/// scratch.
fn sent_bytes(bytes: &[u8]) -> Few<u8, 60>
    requires enough { 12 ≤ length bytes.now }
    requires few { length bytes.now ≤ 60 }
    requires ttl { 1 ≤ slice_index bytes.now 8 }
    requires version { 1 ≤ slice_index bytes.now 0 }
    requires sum { ones_sum 0 bytes.now ≡ 65535 }
    ensures raised { result ≡ lowered bytes.now }
    ensures from_scratch { result ≡ sent bytes.now }
    ensures sum { ones_sum 0 result ≡ 65535 }
{
    let checksum = raised(two_at(bytes, 10));
    let mut copy = [0; 60];
    let head = &mut copy[..bytes.len()];
    head.copy_from_slice(bytes);
    head[8] -= 1;
    head[10] = (checksum / 256) as u8;
    head[11] = (checksum % 256) as u8;
    Few::from_slice(head)
}

/// The head with which a packet is sent on (RFC 791 section 3.1): its TTL less one, and the
/// checksum that goes with it; all else is as it was. The TTL is at least 2. It takes no memory.
pub fn sent_head(head: &Head) -> Head
    requires { 2 ≤ head.now.ttl }
    ensures bytes { result.bytes ≡ sent head.now.bytes }
    ensures length { result.length ≡ head.now.length }
    ensures ttl { result.ttl + 1 ≡ head.now.ttl }
    ensures src { result.src ≡ head.now.src }
    ensures dst { result.dst ≡ head.now.dst }
{
    Head {
        bytes: sent_bytes(head.bytes.0.as_slice()),
        length: head.length,
        ttl: head.ttl - 1,
        src: head.src,
        dst: head.dst,
    }
}
