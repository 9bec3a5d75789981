//! The names that a source in memory can be asked for.

/// A name with its bytes, or with none where nothing is there under it.
#[derive(Drop)]
pub struct Named {
    /// The name, as it is asked for.
    pub name: String,
    /// The bytes that it holds.
    pub bytes: Option<Vec<u8>>,
}
