//! Standard streams that are closed when the program starts.
//!
//! The system gives the lowest free number to a file that is opened, so a file would take the place of such a stream, and
//! what is meant for the stream would go into the file.

use std::fs::File;
use std::os::fd::AsRawFd;

/// Files that keep the numbers of the standard streams that are closed. A read of the standard input still fails then, and
/// so does a write to the standard output or the standard error. They are asked for before any other file is opened, and
/// held as long as the streams are used.
pub fn placeholders(rt: &HostRuntime) -> (Option<File>, Option<File>, Option<File>) {
    // The lowest free number is given: where one wasn't a standard stream's, none of those is free.
    let first = placeholder(rt);
    let second = if first.is_some() {
        placeholder(rt)
    } else {
        None
    };
    let third = if second.is_some() {
        placeholder(rt)
    } else {
        None
    };
    (first, second, third)
}

/// A file that keeps the number of a standard stream that is closed, where one is.
fn placeholder(rt: &HostRuntime) -> Option<File> {
    let written = File::options().write(true).open(rt, "/dev/null").ok()?;
    match written.as_raw_fd() {
        0 => Some(written),
        1 | 2 => {
            drop(written);
            File::open(rt, "/dev/null").ok()
        }
        _ => None,
    }
}
