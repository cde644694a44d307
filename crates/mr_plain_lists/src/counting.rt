//! Sums over the packets that met entries.

ghost use Rattle.std.specs.Prelude.{◌≡◌, ◌^◌, ◌<◌, ◌≤◌, ◌==◌, if◌then◌else◌, length, map};
ghost use Rattle.mr_model.specs.Counts.{route_sums, counts_in, counts_out, vif_sums};
ghost use Rattle.mr_plain_lists.specs.Knowing.{met_of};

use crate::judging::{is_in, is_vif};
use crate::known::Meeting;
use mr_base::VifRecord;
use mr_model::{RouteTotals, VifTotals};

/// How many bytes a packet counts, if it does.
fn bytes_if(counts: bool, m: &Meeting) -> u64
    ensures bytes { result ≡ (if counts then m.now.length else 0) }
    ensures most { result ≤ 65535 }
{
    if counts { u64::from(m.length) } else { 0 }
}

/// What an entry has counted.
pub fn route_sums(mets: &[Meeting], entry: u32) -> RouteTotals
    requires { length mets.now < 2 ^ 32 }
    ensures { result ≡ route_sums (map met_of mets.now) entry }
{
    let (mut packets, mut bytes, mut wrong) = (0u64, 0u64, 0u64);
    for m in mets {
        packets += u64::from(m.entry == entry);
        bytes += bytes_if(m.entry == entry, m);
        wrong += u64::from(m.entry == entry && m.wrong);
    }
    RouteTotals {
        packets,
        bytes,
        wrong,
    }
}

/// Whether a packet counts in on a vif.
fn counts_in(v: &VifRecord, m: &Meeting) -> bool
    ensures { result ≡ counts_in v.now (met_of m.now) }
{
    is_vif(m.input, v.vif) && v.number <= m.place
}

/// Whether a packet counts out on a vif.
fn counts_out(v: &VifRecord, m: &Meeting) -> bool
    ensures { result ≡ counts_out v.now (met_of m.now) }
{
    is_in(m.outs, v.vif) && v.number <= m.place
}

/// What a vif has counted.
pub fn vif_sums(mets: &[Meeting], v: &VifRecord) -> VifTotals
    requires { length mets.now < 2 ^ 32 }
    ensures { result ≡ vif_sums (map met_of mets.now) v.now }
{
    let (mut packets_in, mut packets_out) = (0u64, 0u64);
    let (mut bytes_in, mut bytes_out) = (0u64, 0u64);
    for m in mets {
        packets_in += u64::from(counts_in(v, m));
        packets_out += u64::from(counts_out(v, m));
        bytes_in += bytes_if(counts_in(v, m), m);
        bytes_out += bytes_if(counts_out(v, m), m);
    }
    VifTotals {
        packets_in,
        packets_out,
        bytes_in,
        bytes_out,
    }
}
