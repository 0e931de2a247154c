#![tactic(auto)]
// L11, coordinates rearranged for the archive, and back: checks 30 and 31 of the two lengths, then one pass over the numbers. Lists may
// have any length: no length is multiplied before it is known to be a quarter of the other.
pub mod archiving;
pub mod four_bytes;
pub mod laws;
pub mod restoring;

ghost use Rattle.std.specs.Prelude.{◌≡◌};
ghost use Rattle.paper.specs.Faults.{stated};
ghost use Rattle.paper.specs.Archive.{archive_verdict, Archived, Restored};

use paper::Refusal;

// The bytes of the differences, plane by plane. Nothing is written before both checks have passed.
pub fn archive(numbers: &[i32], bytes: &mut [u8]) -> Result<(), Refusal>
    ensures { Archived numbers.now bytes.old result bytes.new }
{
    check_lengths(numbers.len(), bytes.len())?;
    crate::archiving::fill_planes(numbers, bytes);
    Ok(())
}

// The numbers whose differences have these bytes.
pub fn restore(bytes: &[u8], numbers: &mut [i32]) -> Result<(), Refusal>
    ensures { Restored bytes.now numbers.old result numbers.new }
{
    check_lengths(numbers.len(), bytes.len())?;
    crate::restoring::fill_numbers(bytes, numbers);
    Ok(())
}

// Checks 30 and 31, of the lengths of number list and byte list.
fn check_lengths(numbers: usize, bytes: usize) -> Result<(), Refusal>
    ensures { stated result ≡ archive_verdict numbers bytes }
{
    if numbers % 3 != 0 {
        return Err(Refusal {
            number: 30,
            place: numbers,
        });
    }
    if bytes % 4 != 0 || bytes / 4 != numbers {
        return Err(Refusal {
            number: 31,
            place: bytes,
        });
    }
    Ok(())
}
