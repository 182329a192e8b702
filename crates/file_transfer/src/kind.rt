//! What has a name and is no file.
use std::fs::Metadata;
use std::os::unix::fs::FileTypeExt;

/// What something is that is no file.
pub(crate) fn kind_of(info: &Metadata) -> &'static str {
    let kind = info.file_type();
    if kind.is_dir() {
        "it is a folder"
    } else if kind.is_symlink() {
        "it is a link"
    } else if kind.is_fifo() {
        "it is a fifo"
    } else if kind.is_socket() {
        "it is a socket"
    } else {
        "it is a device"
    }
}
