//! How much is reported of a packet's data.

/// What a report says of data.
#[derive(Clone, Copy, Debug, PartialEq, Eq)]
pub enum View {
    /// The bytes in hexadecimal.
    Plain,
    /// Also the bytes as a text, and of a packet of data the parts of a command or a reply of FILE.
    File,
}
