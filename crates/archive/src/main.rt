#![tactic(auto)]
// Rearranges the coordinate list on standard input for the archive: four-byte numbers, low byte first, become the bytes of their
// differences, plane by plane, on standard output. The second plane comes after the last number's lowest byte, so the whole list is held,
// and there is a longest list. What is turned down gets a line on standard error and nothing on standard output.
ghost use Rattle.std.specs.Prelude.{◌*◌, ◌≤◌, length};

use paper::Refusal;
use rearrange::four_bytes::{LONGEST_BYTES, LONGEST_LIST};

fn main(rt: HostRuntime) {
    if 1 < streams::arguments::count(rt) {
        streams::output::complain(rt, b"usage: archive < FILE > FILE\n");
        return;
    }
    let mut bytes = [0u8; LONGEST_BYTES + 1];
    let mut numbers = [0i32; LONGEST_LIST];
    run(rt, &mut bytes, &mut numbers);
}

// The lists go on as slices: of their zeros, too many for a proof to count, only the types tell the lengths.
fn run(rt: HostRuntime, bytes: &mut [u8; LONGEST_BYTES + 1], numbers: &mut [i32; LONGEST_LIST]) {
    archive_input(rt, bytes, numbers);
}

// Reads the bytes, one more than the longest list has, so that a longer one is noticed, and lends a number for each four of them.
fn archive_input(rt: HostRuntime, bytes: &mut [u8], numbers: &mut [i32]) {
    match streams::input::read_up_to(rt, &mut rt.stdin(), b"standard input", bytes) {
        Ok(held) if LONGEST_BYTES < held => {
            streams::output::complain(rt, b"standard input: more than 1572864 bytes\n");
        }
        Ok(held) => {
            let n = (held / 4).min(numbers.len());
            archive_numbers(rt, &mut bytes[..held], &mut numbers[..n]);
        }
        Err(_) => {}
    }
}

// Reads the numbers, and writes the bytes of their differences in the place of theirs.
fn archive_numbers(rt: HostRuntime, bytes: &mut [u8], numbers: &mut [i32])
    requires { 4 * length numbers.old ≤ length bytes.old }
{
    rearrange::four_bytes::read_numbers(bytes, numbers);
    match rearrange::archive(numbers, bytes) {
        Ok(()) => {
            streams::output::say(rt, bytes);
        }
        Err(Refusal { number, place }) => lines::complain_refusal(rt, number, place),
    }
}
