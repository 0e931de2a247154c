// The program's arguments, each read into a lent buffer.
ghost use Rattle.std.specs.Prelude.{IfOk};
ghost use Rattle.io.specs.Counts.{IsPrefixLen};

use crate::error::SystemError;
use std::env::FillError;
use std::rt::Env;

// How many arguments there are; the first is the program's name.
pub fn count(rt: HostRuntime) -> usize {
    let mut first = [0u8; 1];
    for i in 0..usize::MAX {
        if let Err(FillError::NotPresent) = rt.arg(i, &mut first) {
            return i;
        }
    }
    usize::MAX
}

// Reads the argument with this number into the buffer, and answers how many bytes it has. One that is missing, or that the buffer does not hold, is an
// error.
pub fn get(rt: HostRuntime, i: usize, buffer: &mut [u8]) -> Result<usize, SystemError>
    ensures { IfOk result (λ n. IsPrefixLen n buffer.new) }
{
    Ok(rt.arg(i, buffer)?)
}
