//! Descriptors 0 to 2: standard input, output and error.
use std::fs::{File, Files, OpenOptions};
use std::os::fd::AsRawFd;

/// What is read as nothing, and takes all that is written.
const NOWHERE: &str = "/dev/null";

/// Opens it to be read alone, or to be written alone.
fn open_nowhere<R: Files<File = File>>(rt: &R, is_written: bool) -> Option<File> {
    let mut how = OpenOptions::new();
    how.read(!is_written).write(is_written);
    how.open(rt, NOWHERE).ok()
}

/// Files in the place of those of the three descriptors that are closed, so that no socket gets the
/// number of one: what is written for a user would go into it. As a closed one does, they fail:
/// that of standard input at each read, and the others at each write.
pub(crate) fn fill_descriptors<R: Files<File = File>>(rt: &R) -> [Option<File>; 3] {
    let mut held = [None, None, None];
    for place in &mut held {
        let Some(file) = open_nowhere(rt, false) else {
            break;
        };
        match file.as_raw_fd() {
            0 => {
                drop(file);
                *place = open_nowhere(rt, true);
            }
            1 | 2 => *place = Some(file),
            _ => break,
        }
    }
    held
}
