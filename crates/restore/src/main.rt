#![tactic(auto)]
// Restores a coordinate list from the archive: the bytes on standard input, as `archive` writes them, become four-byte numbers, low byte
// first, on standard output. Every number has a byte in each quarter of the input, so the whole of it is held, and there is a longest
// list. What is turned down gets a line on standard error and nothing on standard output.
use paper::Refusal;
use rearrange::four_bytes::{LONGEST_BYTES, LONGEST_LIST};

fn main(rt: HostRuntime) {
    if 1 < streams::arguments::count(rt) {
        streams::output::complain(rt, b"usage: restore < FILE > FILE\n");
        return;
    }
    let mut bytes = [0u8; LONGEST_BYTES + 1];
    let mut numbers = [0i32; LONGEST_LIST];
    run(rt, &mut bytes, &mut numbers);
}

// The lists go on as slices: of their zeros, too many for a proof to count, only the types tell the lengths.
fn run(rt: HostRuntime, bytes: &mut [u8; LONGEST_BYTES + 1], numbers: &mut [i32; LONGEST_LIST]) {
    restore_input(rt, bytes, numbers);
}

// Reads the bytes, one more than the longest list has, so that a longer one is noticed, and lends a number for each four of them.
fn restore_input(rt: HostRuntime, bytes: &mut [u8], numbers: &mut [i32]) {
    match streams::input::read_up_to(rt, &mut rt.stdin(), b"standard input", bytes) {
        Ok(held) if LONGEST_BYTES < held => {
            streams::output::complain(rt, b"standard input: more than 1572864 bytes\n");
        }
        Ok(held) => {
            let n = (held / 4).min(numbers.len());
            restore_numbers(rt, &mut bytes[..held], &mut numbers[..n]);
        }
        Err(_) => {}
    }
}

// Restores the numbers, and writes their bytes in the place of the archive's.
fn restore_numbers(rt: HostRuntime, bytes: &mut [u8], numbers: &mut [i32]) {
    match rearrange::restore(bytes, numbers) {
        Ok(()) => {
            rearrange::four_bytes::write_numbers(numbers, bytes);
            streams::output::say(rt, bytes);
        }
        Err(Refusal { number, place }) => lines::complain_refusal(rt, number, place),
    }
}
