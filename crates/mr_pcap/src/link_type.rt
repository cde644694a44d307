//! What the frames of a trace begin with.
ghost use Rattle.std.specs.Prelude.{◌≡◌};
ghost use Rattle.mr_pcap.specs.Traces.{link_type_of, number_of};

/// The link types that are read and written, with their numbers of the registry of tcpdump.org.
#[derive(Clone, Copy, Debug, PartialEq, Eq)]
pub enum LinkType {
    /// 1: Ethernet, a head of 14 bytes.
    Ethernet,
    /// 101: raw IP of any version.
    RawIp,
    /// 113: Linux cooked capture, a head of 16 bytes.
    LinuxCooked,
    /// 228: raw IPv4.
    RawIpv4,
    /// 276: Linux cooked capture version 2, a head of 20 bytes.
    LinuxCooked2,
}

impl LinkType {
    /// The link type of a number: none for a number other than the five.
    pub fn of(number: u16) -> Option<LinkType>
        ensures { result ≡ link_type_of number }
    {
        match number {
            1 => Some(LinkType::Ethernet),
            101 => Some(LinkType::RawIp),
            113 => Some(LinkType::LinuxCooked),
            228 => Some(LinkType::RawIpv4),
            276 => Some(LinkType::LinuxCooked2),
            _ => None,
        }
    }

    /// The number of a link type.
    pub fn number(self) -> u16
        ensures { result ≡ number_of self }
    {
        match self {
            LinkType::Ethernet => 1,
            LinkType::RawIp => 101,
            LinkType::LinuxCooked => 113,
            LinkType::RawIpv4 => 228,
            LinkType::LinuxCooked2 => 276,
        }
    }
}
