//! The counts that `SIOCGETSGCNT` and `SIOCGETVIFCNT` read, as records.
ghost use Rattle.std.specs.Prelude.{◌≡◌};
ghost use Rattle.mr_opt.specs.Records.{sg_bytes, sg_of, vif_bytes, vif_of};

use crate::fields::{addr_at, u16_at, u64_at};
use byteorder::{BigEndian, ByteOrder, LittleEndian};
use mr_base::Addr;
use mr_model::{RouteTotals, VifTotals};

/// The length of an (S,G) count's record, in bytes.
pub const SG_COUNT_LENGTH: usize = 32;

/// The length of a vif count's record, in bytes.
pub const VIF_COUNT_LENGTH: usize = 34;

/// The record of an (S,G) count (struct sioc_sg_req of mroute.h): source and group in network
/// order, and then packets, bytes, and packets on a wrong interface, 8 bytes each with the lowest
/// first. It takes no memory.
pub fn sg_bytes(src: Addr, dst: Addr, totals: &RouteTotals) -> [u8; SG_COUNT_LENGTH]
    ensures bytes { result ≡ sg_bytes src dst totals.now }
    ensures again { sg_of result ≡ (src, dst, totals.now) }
{
    let RouteTotals {
        packets,
        bytes,
        wrong,
    } = *totals;
    let mut record = [0; SG_COUNT_LENGTH];
    BigEndian::write_u32(&mut record, src.0);
    BigEndian::write_u32(&mut record[4..], dst.0);
    LittleEndian::write_u64(&mut record[8..], packets);
    LittleEndian::write_u64(&mut record[16..], bytes);
    LittleEndian::write_u64(&mut record[24..], wrong);
    record
}

/// The source, the group and the totals in an (S,G) count's record. It takes no memory.
pub fn read_sg(bytes: &[u8; SG_COUNT_LENGTH]) -> (Addr, Addr, RouteTotals)
    ensures { result ≡ sg_of bytes.now }
{
    let totals = RouteTotals {
        packets: u64_at(bytes, 8),
        bytes: u64_at(bytes, 16),
        wrong: u64_at(bytes, 24),
    };
    (addr_at(bytes, 0), addr_at(bytes, 4), totals)
}

/// The record of a vif count (struct sioc_vif_req of mroute.h): the vif in 2 bytes, and then
/// packets in, packets out, bytes in and bytes out, 8 bytes each, with the lowest first. It takes
/// no memory.
pub fn vif_bytes(vif: u16, totals: &VifTotals) -> [u8; VIF_COUNT_LENGTH]
    ensures bytes { result ≡ vif_bytes vif totals.now }
    ensures again { vif_of result ≡ (vif, totals.now) }
{
    let VifTotals {
        packets_in,
        packets_out,
        bytes_in,
        bytes_out,
    } = *totals;
    let mut record = [0; VIF_COUNT_LENGTH];
    LittleEndian::write_u16(&mut record, vif);
    LittleEndian::write_u64(&mut record[2..], packets_in);
    LittleEndian::write_u64(&mut record[10..], packets_out);
    LittleEndian::write_u64(&mut record[18..], bytes_in);
    LittleEndian::write_u64(&mut record[26..], bytes_out);
    record
}

/// The vif and the totals in a vif count's record. It takes no memory.
pub fn read_vif(bytes: &[u8; VIF_COUNT_LENGTH]) -> (u16, VifTotals)
    ensures { result ≡ vif_of bytes.now }
{
    let totals = VifTotals {
        packets_in: u64_at(bytes, 2),
        packets_out: u64_at(bytes, 10),
        bytes_in: u64_at(bytes, 18),
        bytes_out: u64_at(bytes, 26),
    };
    (u16_at(bytes, 0), totals)
}
