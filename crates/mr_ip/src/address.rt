//! Which addresses a head may have.
ghost use Rattle.std.specs.Prelude.{◌≡◌};
ghost use Rattle.mr_base.specs.Heads as heads;

use mr_base::Addr;

/// Whether the address is in 224.0.0.0/4.
pub fn is_multicast(addr: Addr) -> bool
    ensures { result ≡ heads.is_multicast addr.0 }
{
    addr.0 / 0x1000_0000 == 0xE
}

/// Whether the address is in 224.0.0.0/24, which is never forwarded.
pub fn is_link_local(addr: Addr) -> bool
    ensures { result ≡ heads.is_link_local addr.0 }
{
    addr.0 / 0x100 == 0xE0_0000
}

/// Whether the address is no source: in 0.0.0.0/8, 127.0.0.0/8 or 224.0.0.0/4, or 255.255.255.255.
pub fn is_bad_source(addr: Addr) -> bool
    ensures { result ≡ heads.is_bad_source addr.0 }
{
    let network = addr.0 / 0x100_0000;
    network == 0 || network == 127 || is_multicast(addr) || addr.0 == u32::MAX
}
