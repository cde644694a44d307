//! The records by which requests are made.
ghost use Rattle.std.specs.Prelude.{◌≡◌, ◌++◌, ◌≤◌, length, drop, if◌then◌else◌, ◌==◌, IfNone};
ghost use Rattle.std.specs.Prelude.{IfOk, IfSome, IsSomeAnd};
ghost use Rattle.byteorder.specs.Endian.{big_bytes, little_bytes};
ghost use Rattle.mr_opt.specs.Options.{set_by, request_of};
ghost use Rattle.mr_opt.specs.Records.{vifctl_bytes, mfcctl_bytes, int_bytes, vifctl_of, mfcctl_of};
ghost use Rattle.mr_opt.specs.Records.{mfc_key_of, int_of};

use crate::options::*;
use byteorder::{BigEndian, ByteOrder, LittleEndian};
use mr_base::{Addr, Memory};
use mr_model::{MfcKey, Request, VifCtl};
use std::alloc::Global;

/// Writes the local field of a vifctl with these flags.
fn put_local(field: &mut [u8], flags: u8, local: u32)
    requires { 4 ≤ length field.old }
    ensures { field.new
        ≡ (if flags == 8 then little_bytes 4 local else big_bytes 4 local) ++ drop 4 field.old }
{
    if flags == VIFF_USE_IFINDEX {
        LittleEndian::write_u32(field, local);
    } else {
        BigEndian::write_u32(field, local);
    }
}

/// A vifctl, with zeros for what is ignored.
fn vifctl_bytes(vif: u16, flags: u8, local: u32) -> [u8; VIFCTL_LENGTH]
    ensures bytes { result ≡ vifctl_bytes vif flags local }
    ensures again { vifctl_of result ≡ record { vif = vif; flags = flags; local = local } }
{
    let mut bytes = [0; VIFCTL_LENGTH];
    LittleEndian::write_u16(&mut bytes, vif);
    bytes[2] = flags;
    put_local(&mut bytes[8..], flags, local);
    bytes
}

/// An mfcctl, with zeros for what is ignored.
fn mfcctl_bytes(src: Addr, dst: Addr, parent: u16, ttls: &[u8; 32]) -> [u8; MFCCTL_LENGTH]
    ensures bytes { result ≡ mfcctl_bytes src dst parent ttls.now }
    ensures again { mfcctl_of result
        ≡ record { src = src; dst = dst; parent = parent; ttls = ttls.now } }
    ensures key { mfc_key_of result ≡ record { src = src; dst = dst; parent = parent } }
{
    let mut bytes = [0; MFCCTL_LENGTH];
    BigEndian::write_u32(&mut bytes, src.0);
    BigEndian::write_u32(&mut bytes[4..], dst.0);
    LittleEndian::write_u16(&mut bytes[8..], parent);
    bytes[10..42].copy_from_slice(ttls);
    bytes
}

/// A number.
fn int_bytes(n: u32) -> [u8; INT_LENGTH]
    ensures bytes { result ≡ int_bytes n }
    ensures again { int_of result ≡ n }
{
    let mut bytes = [0; INT_LENGTH];
    LittleEndian::write_u32(&mut bytes, n);
    bytes
}

/// An option with its record.
fn set(alloc: Global, opt: u16, bytes: &[u8]) -> Result<Option<(u16, Vec<u8>)>, Memory>
    ensures { IfOk result (λ set. IsSomeAnd set (λ s. (s.0 ≡ opt) × (s.1.items ≡ bytes.now))) }
{
    match Vec::from_slice(alloc, bytes) {
        Ok(bytes) => Ok(Some((opt, bytes))),
        Err(_) => Err(Memory),
    }
}

/// The option and the record by which a request is made. None exactly for the requests that read
/// (`GetVersion`, `GetPim`, `GetAssert`, `VifCount`, `SgCount`) and for `Unknown` and `BadLength`.
///
/// # Errors
/// `Memory` where there is none for the record.
pub fn set_bytes(alloc: Global, request: &Request) -> Result<Option<(u16, Vec<u8>)>, Memory>
    ensures made { IfOk result (λ set.
        IfSome set (λ s. set_by request.now ≡ Some (s.0, s.1.items))) }
    ensures none { IfOk result (λ set. IfNone set (set_by request.now ≡ None)) }
    ensures again { IfOk result (λ set. IfSome set (λ s. request_of s.0 s.1.items ≡ request.now)) }
{
    match *request {
        Request::Init => set(alloc, MRT_INIT, &int_bytes(1)),
        Request::Finish => set(alloc, MRT_DONE, &[]),
        Request::AddVif(VifCtl { vif, flags, local }) => {
            set(alloc, MRT_ADD_VIF, &vifctl_bytes(vif, flags, local))
        }
        Request::DelVif(vif) => set(alloc, MRT_DEL_VIF, &vifctl_bytes(vif, 0, 0)),
        Request::AddMfc(ref c) => {
            set(
                alloc,
                MRT_ADD_MFC,
                &mfcctl_bytes(c.src, c.dst, c.parent, &c.ttls),
            )
        }
        Request::DelMfc(MfcKey { src, dst, parent }) => {
            set(
                alloc,
                MRT_DEL_MFC,
                &mfcctl_bytes(src, dst, parent, &[0; 32]),
            )
        }
        Request::AddProxy(ref c) => {
            set(
                alloc,
                MRT_ADD_MFC_PROXY,
                &mfcctl_bytes(c.src, c.dst, c.parent, &c.ttls),
            )
        }
        Request::DelProxy(MfcKey { src, dst, parent }) => {
            set(
                alloc,
                MRT_DEL_MFC_PROXY,
                &mfcctl_bytes(src, dst, parent, &[0; 32]),
            )
        }
        Request::Assert(n) => set(alloc, MRT_ASSERT, &int_bytes(n)),
        Request::Pim(n) => set(alloc, MRT_PIM, &int_bytes(n)),
        Request::Flush(bits) => set(alloc, MRT_FLUSH, &int_bytes(bits)),
        Request::Unknown(_)
        | Request::BadLength(_)
        | Request::GetVersion
        | Request::GetPim
        | Request::GetAssert
        | Request::VifCount(_)
        | Request::SgCount { .. } => Ok(None),
    }
}
