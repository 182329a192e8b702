//! Local files that are put.
use crate::named::Named;
use chaos_file::FilePath;

/// The name of standard input and output.
pub const STREAM: &str = "-";

/// A local file, and the path that it is put under.
#[derive(Drop)]
pub struct PutFile<'a> {
    /// The local file's name.
    pub local: &'a str,
    /// The path of the server's file. There is none where FILE takes no such name.
    pub path: Option<FilePath>,
}

impl Named for PutFile<'_> {
    ghost name = { λ file. file.local.now };

    fn name(&self) -> &str {
        self.local
    }
}
