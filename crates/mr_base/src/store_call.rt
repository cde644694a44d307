use crate::file_name::FileName;

/// A call of a store, as it keeps it.
#[derive(Debug, Drop)]
pub struct StoreCall {
    /// Whether it was a read; else a write.
    pub is_read: bool,
    /// The name of the file.
    pub name: FileName,
    /// Whether it answered `Failed`.
    pub failed: bool,
}
