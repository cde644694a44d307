//! Fields of records, read where they stand.
ghost use Rattle.std.specs.Prelude.{◌≡◌, ◌+◌, ◌≤◌, length, drop};
ghost use Rattle.byteorder.specs.Endian.{big_number, little_number};
ghost use Rattle.mr_opt.specs.Records.{addr};

use byteorder::{BigEndian, ByteOrder, LittleEndian};
use mr_base::Addr;

/// The number of 16 bits at an index.
pub(crate) fn u16_at(bytes: &[u8], at: usize) -> u16
    requires { at + 2 ≤ length bytes.now }
    ensures { result ≡ little_number 2 (drop at bytes.now) }
{
    LittleEndian::read_u16(&bytes[at..])
}

/// The number of 32 bits at an index.
pub(crate) fn u32_at(bytes: &[u8], at: usize) -> u32
    requires { at + 4 ≤ length bytes.now }
    ensures { result ≡ little_number 4 (drop at bytes.now) }
{
    LittleEndian::read_u32(&bytes[at..])
}

/// The number of 64 bits at an index.
pub(crate) fn u64_at(bytes: &[u8], at: usize) -> u64
    requires { at + 8 ≤ length bytes.now }
    ensures { result ≡ little_number 8 (drop at bytes.now) }
{
    LittleEndian::read_u64(&bytes[at..])
}

/// The address at an index.
pub(crate) fn addr_at(bytes: &[u8], at: usize) -> Addr
    requires { at + 4 ≤ length bytes.now }
    ensures { result ≡ addr (big_number 4 (drop at bytes.now)) }
{
    Addr(BigEndian::read_u32(&bytes[at..]))
}
