use mr_base::FileName;

/// An active interface: an enabled one that is a device.
#[derive(Debug, Drop)]
pub struct Interface {
    pub name: FileName,
    /// The number of its device, from 1; 4,294,967,295 stands for that number and all above.
    pub device: u32,
    /// The TTL threshold, 1 to 255.
    pub threshold: u8,
}
