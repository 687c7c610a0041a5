// The standard streams that are closed when a run starts.
use std::fs::{File, OpenOptions};
use std::io;
use std::os::fd::AsRawFd;
use std::rt::Files;

// The number of the standard error; the standard input and output have those below it.
const LAST_STREAM: i32 = 2;

/// Files that stand for the standard streams that were closed, until this is dropped.
#[derive(Drop)]
pub struct ClosedStreams {
    input: Option<File>,
    output: Option<File>,
    errors: Option<File>,
}

// The null device, where that took a stream's number.
fn stand_in<R: Files<File = File>>(rt: &R, options: &OpenOptions) -> io::Result<Option<File>> {
    let file = options.open(rt, "/dev/null")?;
    if file.as_raw_fd() <= LAST_STREAM {
        return Ok(Some(file));
    }
    Ok(None)
}

impl ClosedStreams {
    /// Takes the numbers of the standard streams that are closed, so that no other file gets one. A call on such a stream
    /// fails, as it would have: the one for input is open for writing alone, and the others for reading.
    ///
    /// # Errors
    ///
    /// That of opening the null device. Then the streams are as they were.
    pub fn fill<R: Files<File = File>>(rt: &R) -> io::Result<ClosedStreams> {
        let mut filled = ClosedStreams {
            input: None,
            output: None,
            errors: None,
        };
        match stand_in(rt, OpenOptions::new().write(true))? {
            None => return Ok(filled),
            Some(file) if file.as_raw_fd() == 0 => filled.input = Some(file),
            Some(_) => {}
        }
        filled.output = stand_in(rt, OpenOptions::new().read(true))?;
        if filled.output.is_some() {
            filled.errors = stand_in(rt, OpenOptions::new().read(true))?;
        }
        Ok(filled)
    }
}
