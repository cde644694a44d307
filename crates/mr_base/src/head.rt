ghost use Rattle.std.specs.Prelude.{◌≡◌, true};
ghost use Rattle.mr_base.specs.Heads.{is_head, least};

use crate::few::Few;
use crate::numbers::Addr;
use std::alloc::AllocError;

/// An accepted IPv4 head (RFC 791 section 3.1): its bytes, and the fields that agree with them.
#[derive(Debug, Drop)]
pub struct Head {
    /// The 20 to 60 bytes of the head, options included.
    pub bytes: Few<u8, 60>,
    /// The total length of the packet, in bytes.
    pub length: u16,
    /// The time to live.
    pub ttl: u8,
    /// The source.
    pub src: Addr,
    /// The destination, a multicast group.
    pub dst: Addr,
    pub ghost accepted: { is_head bytes length ttl src.0 dst.0 ≡ true },
}

/// From 10.0.0.1 to 224.0.1.0: protocol 17, ident 0, no flags, TTL 1 and length 20.
const LEAST: [u8; 20] = [
    0x45, 0, 0, 20, 0, 0, 0, 0, 1, 17, 206, 216, 10, 0, 0, 1, 224, 0, 1, 0,
];

impl Default for Head {
    ghost is_default = { λ head. head.bytes ≡ least };

    /// The head of 20 bytes from 10.0.0.1 to 224.0.1.0, protocol 17, TTL 1.
    #[tactic(auto, unfolding(crate::specs::Heads::is_head, crate::specs::Heads::cause_in))]
    fn default() -> Self {
        Head {
            bytes: Few::from_slice(&LEAST),
            length: 20,
            ttl: 1,
            src: Addr(0x0A00_0001),
            dst: Addr(0xE000_0100),
        }
    }
}

impl Clone for Head {
    ghost is_clone = { λ a b. b ≡ a };

    fn clone(&self) -> Result<Self, AllocError> {
        Ok(Head {
            bytes: self.bytes.clone()?,
            length: self.length,
            ttl: self.ttl,
            src: self.src,
            dst: self.dst,
        })
    }
}
