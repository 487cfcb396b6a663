//! The form of names in composed record data.

/// The form of the names in composed record data.
#[derive(Clone, Copy, Debug)]
pub enum NameForm {
    /// As the target writes them, compressed if it does so (RFC 1035, 4.1.4).
    Compressed,
    /// Uncompressed, in lowercase if `true` (RFC 4034, 6.2).
    Whole(bool),
}
