// A mesh file read from a reader: its first bytes into a lent buffer, and its length, counted on past the buffer to its end or to one
// byte past the length that 3 asks, so that 3 and 4 can be told apart.
ghost use Rattle.std.specs.Prelude.{◌≤◌, length, IfOk, IfErr};
ghost use Rattle.paper.specs.File.{header_length};
ghost use Rattle.print.specs.file_input.Measured.{Measured, ReadInto};

use std::io::Read;
use streams::error::SystemError;
use streams::input::{Failed, fill, read_some};
use streams::output::fail;

// The buffer holds every file that 3 and 4 let pass.
pub const BUFFER: usize = 61451;

const SPILL: usize = 4096;

// What was read: how many bytes are held, and how many were counted.
#[derive(Clone, Copy)]
pub struct Input {
    pub held: usize,
    pub counted: usize,
}

// Reading failed for good, after this was read.
#[derive(Clone, Copy)]
pub struct Unread {
    pub before: Input,
}

// Reads the file that a reader gives. Where reading fails for good, a line on standard error says so.
pub fn read_file<R: Read>(
    rt: HostRuntime,
    from: &mut R,
    name: &[u8],
    buffer: &mut [u8],
) -> Result<Input, Unread>
    requires { header_length ≤ length buffer.old }
    ensures ok { IfOk result (λ input. ReadInto input buffer.new (length buffer.old)) }
    ensures err { IfErr result (λ unread. ReadInto unread.before buffer.new (length buffer.old)) }
{
    let size = buffer.len();
    match fill(from, buffer) {
        Ok(held) => match count_on(from, &buffer[..held], size) {
            Ok(counted) => Ok(Input { held, counted }),
            Err(failed) => {
                fail(rt, name, failed.error);
                Err(Unread {
                    before: Input {
                        held,
                        counted: failed.count,
                    },
                })
            }
        },
        Err(failed) => {
            fail(rt, name, failed.error);
            Err(Unread {
                before: Input {
                    held: failed.count,
                    counted: failed.count,
                },
            })
        }
    }
}

// The file's length, of which these bytes were read first, into a buffer of this size.
fn count_on<R: Read>(from: &mut R, held: &[u8], size: usize) -> Result<usize, Failed>
    requires { header_length ≤ size }
    ensures ok { IfOk result (λ counted. Measured held.now size counted) }
    ensures err { IfErr result (λ failed. Measured held.now size failed.count) }
{
    let mut counted = held.len();
    if size <= counted {
        let most = dms_lists::header::expected_length(held) + 1;
        while counted < most {
            match skip(from, most - counted) {
                Ok(0) => break,
                Ok(more) => counted += more,
                Err(error) => {
                    return Err(Failed {
                        count: counted,
                        error,
                    });
                }
            }
        }
    }
    Ok(counted)
}

// Reads on, at most so many bytes, and drops them.
fn skip<R: Read>(from: &mut R, most: usize) -> Result<usize, SystemError>
    ensures { IfOk result (λ n. n ≤ most) }
{
    let mut spill = [0u8; SPILL];
    read_some(from, &mut spill[..most.min(SPILL)])
}
