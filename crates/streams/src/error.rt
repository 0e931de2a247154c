// Why a call of the system failed.
use std::env::FillError;
use std::io::Error;

// The system's number for why.
#[derive(Clone, Copy, Debug, PartialEq, Eq)]
pub struct SystemError(pub i32);

// An argument that is not valid; it stands for an error that the library itself found, as a zero byte in a file's name.
const INVALID: i32 = 22;

// An argument that is missing has the number of one that is not valid.
const MISSING: SystemError = SystemError(22);

// An argument that the buffer does not hold.
const TOO_LONG: SystemError = SystemError(36);

// Bytes that are no text.
pub(crate) const NO_TEXT: SystemError = SystemError(84);

impl From<Error> for SystemError {
    fn from(error: Error) -> SystemError {
        SystemError(error.raw_os_error().unwrap_or(INVALID))
    }
}

impl From<FillError> for SystemError {
    fn from(error: FillError) -> SystemError {
        match error {
            FillError::NotPresent => MISSING,
            FillError::TooLong => TOO_LONG,
        }
    }
}
