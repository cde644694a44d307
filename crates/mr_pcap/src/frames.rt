//! The packet in a frame.
ghost use Rattle.std.specs.Prelude.{◌≡◌, ◌+◌, ◌≤◌, None, MatchOption, Some};
ghost use Rattle.mr_pcap.specs.Traces.{behind_type, ip_part_of};

use crate::link_type::LinkType;

/// The EtherType of IPv4.
const IPV4: [u8; 2] = [8, 0];

/// The bytes from `start` on, where the EtherType at an index says IPv4.
fn behind_type(frame: &[u8], at: usize, start: usize) -> Option<&[u8]>
    requires { at + 2 ≤ start }
    ensures { MatchOption result (behind_type at start frame.now ≡ None)
        (λ p. behind_type at start frame.now ≡ Some p.now) }
{
    if start <= frame.len() && frame[at] == IPV4[0] && frame[at + 1] == IPV4[1] {
        Some(&frame[start..])
    } else {
        None
    }
}

/// The IPv4 packet in a frame of a link, with what stands behind it, as padding. None exactly
/// where the frame does not say IPv4: it is shorter than the link's head, has another EtherType
/// there (a VLAN tag is one), or is raw IP of another version or empty. On a raw IPv4 link each
/// frame is a packet. It takes no memory.
pub fn ip_part(link: LinkType, frame: &[u8]) -> Option<&[u8]>
    ensures { MatchOption result (ip_part_of link frame.now ≡ None)
        (λ p. ip_part_of link frame.now ≡ Some p.now) }
{
    match link {
        LinkType::Ethernet => behind_type(frame, 12, 14),
        LinkType::RawIp if frame.is_empty() || frame[0] / 16 != 4 => None,
        LinkType::RawIp => Some(frame),
        LinkType::LinuxCooked => behind_type(frame, 14, 16),
        LinkType::RawIpv4 => Some(frame),
        LinkType::LinuxCooked2 => behind_type(frame, 0, 20),
    }
}
