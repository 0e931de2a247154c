// Bytes written to standard output or standard error as a whole: short writes are finished, and a write that was interrupted or would have
// waited is tried again. Which bytes the system writes no contract can say.
ghost use Rattle.std.specs.Prelude.{◌≤◌, length, IfOk};

use crate::error::SystemError;
use std::io::{Error, ErrorKind, Write};
use std::thread::yield_now;

// How often a call is tried again: some seconds, where it would wait each time.
pub const TRIES: usize = 16777216;

// Room for the system's words for an error.
const WORDS: usize = 256;

// Whether the call that failed may be tried again, after other programs had their turn.
pub(crate) fn passing(error: &Error) -> bool {
    let kind = error.kind();
    yield_now();
    kind == ErrorKind::Interrupted || kind == ErrorKind::WouldBlock
}

// Says on standard error what failed, and why, in the system's words.
pub fn fail(rt: HostRuntime, what: &[u8], error: SystemError) {
    let mut words = [0u8; WORDS];
    let end = put_words(&mut words, error);
    complain(rt, what);
    complain(rt, b": ");
    complain_up_to(rt, &words, end);
    complain(rt, b"\n");
}

// The system's words for an error, and where they end: the library puts the number after them, between brackets, with a space before these.
fn put_words(words: &mut [u8; WORDS], error: SystemError) -> usize {
    let mut space: &mut [u8] = words;
    let _ = write!(space, "{}", Error::from_raw_os_error(error.0));
    match words.iter().position(|byte| *byte == b'(') {
        Some(bracket) => bracket.saturating_sub(1),
        None => WORDS,
    }
}

// Writes to standard output, and answers whether all was written. Where not, a line on standard error says so.
pub fn say(rt: HostRuntime, bytes: &[u8]) -> bool {
    match write(&mut rt.stdout(), bytes) {
        Ok(()) => true,
        Err(error) => {
            fail(rt, b"standard output", error);
            false
        }
    }
}

// The same, of the buffer's beginning up to a place.
pub fn say_up_to(rt: HostRuntime, buffer: &[u8], end: usize) -> bool {
    match buffer.get(..end) {
        Some(bytes) => say(rt, bytes),
        None => false,
    }
}

// Writes to standard error.
pub fn complain(rt: HostRuntime, bytes: &[u8]) {
    let _ = write(&mut rt.stderr(), bytes);
}

// The same, of the buffer's beginning up to a place.
pub fn complain_up_to(rt: HostRuntime, buffer: &[u8], end: usize) {
    if let Some(bytes) = buffer.get(..end) {
        complain(rt, bytes);
    }
}

// Writes all of the bytes, or as far as writing goes. A writer that takes no byte more is a failure without a number.
fn write<W: Write>(to: &mut W, bytes: &[u8]) -> Result<(), SystemError> {
    let mut rest = bytes;
    while !rest.is_empty() {
        let more = write_some(to, rest)?;
        if more == 0 {
            return Err(SystemError(0));
        }
        rest = &rest[more..];
    }
    Ok(())
}

// One write: how many bytes it took. It stands beside `read_some`, which reads alike, since a closure that changes what it captures would not tell how many
// bytes it gave at most.
fn write_some<W: Write>(to: &mut W, bytes: &[u8]) -> Result<usize, SystemError>
    ensures { IfOk result (λ n. n ≤ length bytes.now) }
{
    for _ in 0..TRIES {
        match to.write(bytes) {
            Ok(count) => return Ok(count),
            Err(error) if passing(&error) => {}
            Err(error) => return Err(SystemError::from(error)),
        }
    }
    Ok(to.write(bytes)?)
}
