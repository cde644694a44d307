//! The flags of MRT_FLUSH (mroute.h).

ghost use Rattle.std.specs.Prelude.{◌≡◌};
ghost use Rattle.mr_model.specs.VifList.{has_flag};

/// MRT_FLUSH removes the entries that are not static, and drops all packets that wait.
pub const MRT_FLUSH_MFC: u32 = 1;
/// It removes the static entries.
pub const MRT_FLUSH_MFC_STATIC: u32 = 2;
/// It removes the vifs that are not static.
pub const MRT_FLUSH_VIFS: u32 = 4;
/// It removes the static vifs.
pub const MRT_FLUSH_VIFS_STATIC: u32 = 8;

/// Whether one of the flags in `bits` is set.
pub fn has_flag(flags: u32, bits: u32) -> bool
    ensures { result ≡ has_flag flags bits }
{
    flags & bits != 0
}
