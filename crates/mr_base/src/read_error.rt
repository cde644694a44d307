/// Why a store did not give the bytes of a file.
#[derive(Clone, Copy, Debug, PartialEq, Eq)]
pub enum ReadError {
    /// The read failed, or no file has the name; the store's count of faults rose.
    Failed,
    /// Memory ran out.
    Memory,
}
