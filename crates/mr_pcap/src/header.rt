use crate::link_type::LinkType;
use crate::order::Order;

/// What the header of a file says.
#[derive(Clone, Copy, Debug)]
pub(crate) struct Header {
    pub(crate) order: Order,
    /// Whether fractions of seconds are nanoseconds.
    pub(crate) nanos: bool,
    pub(crate) link: LinkType,
}
