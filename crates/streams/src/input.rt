// What a file or standard input gives, read into a lent buffer. A read that was interrupted or would have waited is tried again. Which bytes
// the system gives no contract can say.
ghost use Rattle.std.specs.Prelude.{◌≤◌, length, IfOk, IfErr};
ghost use Rattle.io.specs.Counts.{IsPrefixLen};

use crate::error::{NO_TEXT, SystemError};
use crate::output::{TRIES, fail, passing};
use std::fs::File;
use std::io::Read;

// Reading failed for good: how many bytes were read before that, and why it failed.
#[derive(Clone, Copy, Debug, PartialEq, Eq)]
pub struct Failed {
    pub count: usize,
    pub error: SystemError,
}

// Opens a file for reading. Where it cannot be opened, a line on standard error says so.
pub fn open(rt: HostRuntime, name: &[u8]) -> Option<File> {
    let Ok(path) = std::str::from_utf8(name) else {
        fail(rt, name, NO_TEXT);
        return None;
    };
    match File::open(&rt, path) {
        Ok(file) => Some(file),
        Err(error) => {
            fail(rt, name, SystemError::from(error));
            None
        }
    }
}

// Reads what a reader gives into the buffer, until that is full, and answers how many bytes there are. Where reading fails for good, a line on
// standard error says so.
pub fn read_up_to<R: Read>(
    rt: HostRuntime,
    from: &mut R,
    name: &[u8],
    buffer: &mut [u8],
) -> Result<usize, Failed>
    ensures ok { IfOk result (λ n. IsPrefixLen n buffer.new) }
    ensures err { IfErr result (λ e. IsPrefixLen e.count buffer.new) }
{
    let got = fill(from, buffer);
    if let Err(failed) = got {
        fail(rt, name, failed.error);
    }
    got
}

// Reads until the buffer is full or the file ends, and answers how many bytes there are.
pub fn fill<R: Read>(from: &mut R, buffer: &mut [u8]) -> Result<usize, Failed>
    ensures ok { IfOk result (λ n. IsPrefixLen n buffer.new) }
    ensures err { IfErr result (λ e. IsPrefixLen e.count buffer.new) }
{
    let mut done = 0;
    while done < buffer.len() {
        match read_some(from, &mut buffer[done..]) {
            Ok(0) => break,
            Ok(more) => done += more,
            Err(error) => return Err(Failed { count: done, error }),
        }
    }
    Ok(done)
}

// One read, tried again where it was interrupted or would have waited: how many bytes it gave, 0 at the end.
pub fn read_some<R: Read>(from: &mut R, space: &mut [u8]) -> Result<usize, SystemError>
    ensures { IfOk result (λ n. n ≤ length space.old) }
{
    for _ in 0..TRIES {
        match from.read(space) {
            Ok(count) => return Ok(count),
            Err(error) if passing(&error) => {}
            Err(error) => return Err(SystemError::from(error)),
        }
    }
    Ok(from.read(space)?)
}
