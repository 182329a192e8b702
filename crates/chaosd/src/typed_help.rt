//! What somebody is shown who types `help`.

/// What can be typed, line by line.
const HELP: [&str; 11] = [
    "Commands, as you may type them; H is a name of your own for an open file:",
    "  LOGIN NAME           log in, which is the first command",
    "  H OPEN READ^PATH     open a file to be read",
    "  H READ               get the next bytes of the file, at most 448",
    "  H OPEN WRITE^PATH    open a file to be written",
    "  H WRITE^TEXT         write at most 448 bytes; ^ is a newline, \\0a a byte",
    "  H CLOSE              close the file, which stores what was written",
    "  RENAME^OLD^NEW       rename a file",
    "  DELETE^PATH          delete a file",
    "A tid is put in front of each. No command lists the server's files.",
    "Type quit, or control-D, to end.",
];

/// Shows what can be typed.
pub(crate) fn show_help<R: Eprint>(rt: &R) {
    for line in &HELP {
        let _ = eprintln!(rt; "{line}");
    }
}
