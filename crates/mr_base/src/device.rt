use crate::numbers::Addr;

/// A network device of the scenario. Devices are numbered from 1; number 0 is the register device.
#[derive(Clone, Copy, Debug, Default, PartialEq, Eq)]
pub struct Device {
    pub addr: Addr,
}
