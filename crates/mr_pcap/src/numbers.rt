//! Numbers of a file, in its order.
ghost use Rattle.std.specs.Prelude.{◌≡◌, ◌+◌, ◌≤◌, drop, length};
ghost use Rattle.mr_pcap.specs.Traces.{magic, magic_of, number_at};

use crate::order::Order;
use byteorder::{BigEndian, ByteOrder, LittleEndian};

/// The magic number of a file whose fractions of seconds are microseconds.
const MICROSECONDS: u32 = 0xA1B2_C3D4;

/// The magic number of a file whose fractions of seconds are nanoseconds.
const NANOSECONDS: u32 = 0xA1B2_3C4D;

/// The magic number that says what the fractions are.
pub(crate) fn magic(nanos: bool) -> u32
    ensures { result ≡ magic nanos }
{
    if nanos { NANOSECONDS } else { MICROSECONDS }
}

/// The bytes from an index on.
pub(crate) fn from_index(bytes: &[u8], index: usize) -> &[u8]
    requires { index ≤ length bytes.now }
    ensures { result.now ≡ drop index bytes.now }
{
    &bytes[index..]
}

/// The number of 32 bits at an index.
pub(crate) fn number_at(order: Order, bytes: &[u8], at: usize) -> u32
    requires { at + 4 ≤ length bytes.now }
    ensures { result ≡ number_at order at bytes.now }
{
    match order {
        Order::Little => LittleEndian::read_u32(&bytes[at..]),
        Order::Big => BigEndian::read_u32(&bytes[at..]),
    }
}

/// What the magic number says: the order of the file's numbers, and whether fractions of seconds
/// are nanoseconds.
pub(crate) fn magic_of(bytes: &[u8]) -> Option<(Order, bool)>
    requires { 4 ≤ length bytes.now }
    ensures { result ≡ magic_of bytes.now }
{
    let little = number_at(Order::Little, bytes, 0);
    let big = number_at(Order::Big, bytes, 0);
    if little == MICROSECONDS {
        Some((Order::Little, false))
    } else if little == NANOSECONDS {
        Some((Order::Little, true))
    } else if big == MICROSECONDS {
        Some((Order::Big, false))
    } else if big == NANOSECONDS {
        Some((Order::Big, true))
    } else {
        None
    }
}
