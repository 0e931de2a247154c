#![tactic(auto)]
// The lines that a reader gives, one after the other, in a lent buffer. Which bytes the system gives is free; that none of them is lost, and where each
// line ends, is stated.
ghost use Rattle.std.specs.Prelude.{◌≡◌, ◌==◌, ◌≤◌, length};
ghost use Rattle.std.specs.List.{position};
ghost use Rattle.line_input.specs.Places.{feed, LineRead, NextLine};
ghost use Rattle.line_input.specs.declared.LineError.TheVariants.{Unread};

use std::io::Read;
use streams::error::SystemError;
use streams::input::Failed;
use streams::output::{complain, fail};

// What is held of the input: the buffer's bytes from here to there are read and not yet taken.
#[derive(Clone, Copy)]
pub struct Held {
    pub at: usize,
    pub end: usize,
}

// A line, without its line feed, and what is held after it.
#[derive(Clone, Copy)]
pub struct Line {
    pub start: usize,
    pub end: usize,
    pub held: Held,
}

// Why no line can be had: reading failed for good, or the buffer does not hold the line.
#[derive(Clone, Copy, Debug, PartialEq, Eq)]
pub enum LineError {
    Unread(SystemError),
    TooLong,
}

impl From<Failed> for LineError {
    ghost from_gives = { λ failed e. e ≡ Unread failed.error };

    fn from(failed: Failed) -> LineError {
        LineError::Unread(failed.error)
    }
}

// Nothing is held at first.
pub fn nothing() -> Held
    ensures { (result.at ≤ result.end) × (result.end ≤ 0) }
{
    Held { at: 0, end: 0 }
}

// The next line, if there is one. Where what is held has no whole one, it is moved to the buffer's beginning and the rest of the buffer is read. Every
// error is said on standard error.
pub fn next_line<R: Read>(
    rt: HostRuntime,
    from: &mut R,
    name: &[u8],
    buffer: &mut [u8],
    held: Held,
) -> Result<Option<Line>, LineError>
    requires { (held.at ≤ held.end) × (held.end ≤ length buffer.old) }
    ensures { NextLine buffer.old held result buffer.new }
{
    let at = held.at;
    let end = held.end;
    if let Some(i) = find_feed(&buffer[at..end]) {
        return Ok(Some(Line {
            start: at,
            end: at + i,
            held: Held {
                at: at + i + 1,
                end,
            },
        }));
    }
    buffer.copy_within(at..end, 0);
    let line = read_line(from, buffer, end - at);
    if let Err(error) = line {
        tell(rt, name, error);
    }
    line
}

// Says an error on standard error.
fn tell(rt: HostRuntime, name: &[u8], error: LineError) {
    match error {
        LineError::Unread(error) => fail(rt, name, error),
        LineError::TooLong => {
            complain(rt, name);
            complain(rt, b": a line is too long\n");
        }
    }
}

// Reads on after the bytes that were kept, and takes the first line.
fn read_line<R: Read>(
    from: &mut R,
    buffer: &mut [u8],
    kept: usize,
) -> Result<Option<Line>, LineError>
    requires { kept ≤ length buffer.old }
    ensures { LineRead buffer.old kept result buffer.new }
{
    let count = streams::input::fill(from, &mut buffer[kept..])?;
    let end = kept + count;
    if let Some(feed) = find_feed(&buffer[..end]) {
        return Ok(Some(Line {
            start: 0,
            end: feed,
            held: Held { at: feed + 1, end },
        }));
    }
    if end == 0 {
        return Ok(None);
    }
    if end == buffer.len() {
        return Err(LineError::TooLong);
    }
    Ok(Some(Line {
        start: 0,
        end,
        held: Held { at: end, end },
    }))
}

// Where the first line feed is.
fn find_feed(bytes: &[u8]) -> Option<usize>
    ensures { result ≡ position (λ byte. byte == feed) bytes.now }
{
    bytes.iter().position(|byte| *byte == b'\n')
}
