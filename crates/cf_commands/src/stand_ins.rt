//! What stands in the place of standard streams that were closed when the program was started.
use crate::error::CommandError;
use std::fs;
use std::fs::OpenOptions;
use std::rt::Files;

const NULL_DEVICE: &str = "/dev/null";

// Where it is seen whether the stream of this number is open. If nothing tells that, none seems to be.
const STREAMS: [&str; 3] = ["/proc/self/fd/0", "/proc/self/fd/1", "/proc/self/fd/2"];

/// The null device, in the place of each standard stream that is closed: a file that is opened gets the lowest number
/// that is free. While these are kept no socket has the number of a stream, and gets what is written there. If there is
/// no such device, nothing.
///
/// # Errors
///
/// `Memory` alone.
pub(crate) fn stand_ins<R: Files + AllocGlobal>(rt: &R) -> Result<Vec<R::File>, CommandError> {
    let mut kept = Vec::new(rt.alloc());
    for stream in STREAMS {
        if fs::metadata(rt, stream).is_err() {
            add_null_device(rt, &mut kept)?;
        }
    }
    Ok(kept)
}

// Opens the null device once more, and keeps it.
fn add_null_device<R: Files>(rt: &R, kept: &mut Vec<R::File>) -> Result<(), CommandError> {
    let mut options = OpenOptions::new();
    match options.read(true).write(true).open(rt, NULL_DEVICE) {
        Ok(file) => kept.push(file).map_err(CommandError::from),
        Err(_) => Ok(()),
    }
}
