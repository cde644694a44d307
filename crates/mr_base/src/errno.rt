ghost use Rattle.std.specs.Prelude.{◌≡◌};
ghost use Rattle.mr_base.specs.Errnos.{number_of};

/// Why a control call is refused, after errno.h of Linux.
#[derive(Clone, Copy, Debug, PartialEq, Eq)]
pub enum Errno {
    /// ENOENT: no such entry.
    NoEntry,
    /// EACCES: the caller is neither the owner nor an admin.
    Access,
    /// EINVAL: a record of wrong length, or a value that has no meaning.
    Invalid,
    /// ENFILE: a vif of 32 or more.
    TooManyVifs,
    /// ENOPROTOOPT: an option that cannot be set.
    NoOption,
    /// EADDRINUSE: the vif, the register vif or the owner's place is taken.
    InUse,
    /// EADDRNOTAVAIL: no such device, vif or entry.
    NotAvailable,
    /// ENOBUFS: the entries are at their limit.
    NoBuffers,
}

impl Errno {
    /// The number of errno.h.
    pub fn number(self) -> u32
        ensures { result ≡ number_of self }
    {
        match self {
            Errno::NoEntry => 2,
            Errno::Access => 13,
            Errno::Invalid => 22,
            Errno::TooManyVifs => 23,
            Errno::NoOption => 92,
            Errno::InUse => 98,
            Errno::NotAvailable => 99,
            Errno::NoBuffers => 105,
        }
    }
}
