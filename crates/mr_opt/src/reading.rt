//! Requests read from the records of options.
ghost use Rattle.std.specs.Prelude.{◌≡◌, length, drop, Some, take, if◌then◌else◌, ◌==◌, ◌≤◌, ◌↔◌};
ghost use Rattle.std.specs.Prelude.{◌≢◌, IsNone, IsSomeAnd};
ghost use Rattle.mr_opt.specs.Options.{mrt_done, length_of, request_in, request_of};
ghost use Rattle.mr_opt.specs.Records.{vifctl_of, mfcctl_of, mfc_key_of, int_of};

use crate::fields::{addr_at, u16_at, u32_at};
use crate::options::*;
use mr_model::{MfcCtl, MfcKey, Request, VifCtl};

/// How long the record of an option is, in bytes; none for `MRT_DONE` and for what cannot be set.
fn length_of(opt: u16) -> Option<usize>
    ensures { result ≡ length_of opt }
{
    match opt {
        MRT_INIT | MRT_ASSERT | MRT_PIM | MRT_FLUSH => Some(INT_LENGTH),
        MRT_ADD_VIF | MRT_DEL_VIF => Some(VIFCTL_LENGTH),
        MRT_ADD_MFC | MRT_DEL_MFC | MRT_ADD_MFC_PROXY | MRT_DEL_MFC_PROXY => Some(MFCCTL_LENGTH),
        _ => None,
    }
}

/// A vifctl.
fn vifctl_of(bytes: &[u8]) -> VifCtl
    requires { length bytes.now ≡ 16 }
    ensures { result ≡ vifctl_of bytes.now }
{
    let flags = bytes[2];
    let local = if flags == VIFF_USE_IFINDEX {
        u32_at(bytes, 8)
    } else {
        addr_at(bytes, 8).0
    };
    VifCtl {
        vif: u16_at(bytes, 0),
        flags,
        local,
    }
}

/// What names an entry in an mfcctl.
fn mfc_key_of(bytes: &[u8]) -> MfcKey
    requires { length bytes.now ≡ 58 }
    ensures { result ≡ mfc_key_of bytes.now }
{
    MfcKey {
        src: addr_at(bytes, 0),
        dst: addr_at(bytes, 4),
        parent: u16_at(bytes, 8),
    }
}

/// An mfcctl.
fn mfcctl_of(bytes: &[u8]) -> MfcCtl
    requires { length bytes.now ≡ 58 }
    ensures { result ≡ mfcctl_of bytes.now }
{
    let MfcKey { src, dst, parent } = mfc_key_of(bytes);
    let mut ttls = [0; 32];
    ttls.copy_from_slice(&bytes[10..42]);
    MfcCtl {
        src,
        dst,
        parent,
        ttls,
    }
}

/// A number.
fn int_of(bytes: &[u8]) -> u32
    requires { length bytes.now ≡ 4 }
    ensures { result ≡ int_of bytes.now }
{
    u32_at(bytes, 0)
}

/// The request of an option whose record has the right length.
fn request_in(opt: u16, bytes: &[u8]) -> Request
    requires { length_of opt ≡ Some (length bytes.now) }
    ensures { result ≡ request_in opt bytes.now }
{
    match opt {
        MRT_INIT => Request::Init,
        MRT_ADD_VIF => Request::AddVif(vifctl_of(bytes)),
        MRT_DEL_VIF => Request::DelVif(vifctl_of(bytes).vif),
        MRT_ADD_MFC => Request::AddMfc(mfcctl_of(bytes)),
        MRT_DEL_MFC => Request::DelMfc(mfc_key_of(bytes)),
        MRT_ASSERT => Request::Assert(int_of(bytes)),
        MRT_PIM => Request::Pim(int_of(bytes)),
        MRT_ADD_MFC_PROXY => Request::AddProxy(mfcctl_of(bytes)),
        MRT_DEL_MFC_PROXY => Request::DelProxy(mfc_key_of(bytes)),
        _ => Request::Flush(int_of(bytes)),
    }
}

/// The request that setting an option with these bytes makes. `BadLength` comes exactly where the
/// option can be set and its record has another length: 16 bytes for `MRT_ADD_VIF` and
/// `MRT_DEL_VIF` (a vifctl), 58 for `MRT_ADD_MFC`, `MRT_DEL_MFC` and their proxy forms (an
/// mfcctl), 4 for `MRT_INIT`, `MRT_ASSERT`, `MRT_PIM` and `MRT_FLUSH` (a number); `MRT_DONE`
/// takes any bytes. `Unknown` comes exactly where the option cannot be set. It takes no memory.
pub fn read_set(opt: u16, bytes: &[u8]) -> Request
    ensures request { result ≡ request_of opt bytes.now }
    ensures unknown { (result ≡ Request.Unknown opt) ↔ (IsNone (length_of opt) × (opt ≢ mrt_done)) }
    ensures bad_length { (result ≡ Request.BadLength opt)
        ↔ IsSomeAnd (length_of opt) (λ n. length bytes.now ≢ n) }
{
    match length_of(opt) {
        None if opt == MRT_DONE => Request::Finish,
        None => Request::Unknown(opt),
        Some(length) if bytes.len() == length => request_in(opt, bytes),
        Some(_) => Request::BadLength(opt),
    }
}
