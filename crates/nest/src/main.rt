#![tactic(auto)]
// Prints the listing of the nesting table on standard input, one body a line, then the wall drawing as a picture: each body under
// the one it hangs in, indented by its depth. The table has a line for each body: the number of its holder, or `sun`. A table that is
// turned down gets the line `refused`, with number and place; a line that is neither is named on standard error, and nothing is printed.
ghost use Rattle.std.specs.Prelude.{◌≤◌, ◌<◌, length};

use lines::put_ended;
use paper::{MOST_BODIES, Refusal, SUN};
use streams::output::{complain, complain_up_to, say_up_to};
use streams::text::{put_number, put_word};

// A table is read up to one body past the most, which 21 then refuses.
const ROOM: usize = MOST_BODIES + 1;

// A line has at most nine digits and a line feed, so these bytes hold more lines than are read.
const BUFFER: usize = 4096;

// Room for all that is printed. The picture is longest where each body hangs in the one before: the last of 256 is then 512 spaces in.
const LINES_ROOM: usize = 69632;

// The number, from 1, of the first line that is neither a body's number nor the Sun.
#[derive(Clone, Copy)]
struct BadLine(usize);

fn main(rt: HostRuntime) {
    if 1 < streams::arguments::count(rt) {
        complain(rt, b"usage: nest < TABLE\n");
        return;
    }
    let mut bytes = [0u8; BUFFER];
    if let Ok(held) = streams::input::read_up_to(
        rt,
        &mut rt.stdin(),
        b"standard input",
        &mut bytes,
    ) {
        print_text(rt, &bytes[..held]);
    }
}

// Reads the table, and prints it.
fn print_text(rt: HostRuntime, text: &[u8]) {
    let mut holders = [0u16; ROOM];
    match read_table(text, &mut holders) {
        Ok(count) => {
            let n = count.min(ROOM);
            print_table(rt, &holders[..n]);
        }
        Err(BadLine(line)) => complain_line(rt, line),
    }
}

// Reads a table's lines, as many as there is room for; answers how many bodies it has.
fn read_table(text: &[u8], holders: &mut [u16]) -> Result<usize, BadLine> {
    let mut lines = text.split_inclusive(|byte| *byte == b'\n');
    for (k, holder) in holders.iter_mut().enumerate() {
        let Some(line) = lines.next() else {
            return Ok(k);
        };
        let line = line.strip_suffix(b"\n").unwrap_or(line);
        *holder = read_line(line).ok_or(BadLine(k + 1))?;
    }
    Ok(holders.len())
}

// The holder that a line names: `sun`, or a number of at most nine digits.
fn read_line(line: &[u8]) -> Option<u16> {
    if line == b"sun".as_slice() {
        return Some(SUN);
    }
    if line.is_empty() || 9 < line.len() {
        return None;
    }
    read_digits(line)
}

// The number that these digits make. One above 65,535 is given as 65,534, which is no body's number either.
fn read_digits(line: &[u8]) -> Option<u16> {
    let mut value: u32 = 0;
    for byte in line {
        let digit = char::from(*byte).to_digit(10)?;
        value = value.saturating_mul(10).saturating_add(digit);
    }
    Some(u16::try_from(value).unwrap_or(SUN - 1))
}

// The line of the text that is neither.
fn complain_line(rt: HostRuntime, line: usize) {
    let mut said = [0u8; 96];
    let word = put_word(&mut said, 0, b"standard input: line ");
    let number = put_number(&mut said, word, line as u64);
    let end = put_word(&mut said, number, b" is neither a body's number nor sun\n");
    complain_up_to(rt, &said, end);
}

// Lends a listing of the table's length.
fn print_table(rt: HostRuntime, holders: &[u16]) {
    let mut listing = [0u16; ROOM];
    let n = holders.len().min(ROOM);
    print_nested(rt, holders, &mut listing[..n]);
}

// The listing and the picture, or the refusal.
fn print_nested(rt: HostRuntime, holders: &[u16], listing: &mut [u16]) {
    match nesting::nest(holders, listing) {
        Ok(()) => print_lines(rt, holders, listing),
        Err(Refusal { number, place }) => {
            lines::say_refusal(rt, number, place);
        }
    }
}

// The listing and the picture, in one write.
fn print_lines(rt: HostRuntime, holders: &[u16], listing: &[u16]) {
    let mut lines = [0u8; LINES_ROOM];
    let first = put_listing(&mut lines, listing);
    let end = put_picture(&mut lines, first, holders);
    say_up_to(rt, &lines, end);
}

// The bodies in their order, one a line.
fn put_listing(lines: &mut [u8], listing: &[u16]) -> usize {
    let mut at = 0;
    for body in listing {
        at = put_ended(lines, at, u64::from(*body), b'\n');
    }
    at
}

// An empty line, the Sun, and below it every body under its holder. The walk goes down to the lowest body that hangs in this one, or,
// where there is none left, up and on to the next body beside it; so each body is entered once and left once.
fn put_picture(lines: &mut [u8], start: usize, holders: &[u16]) -> usize {
    let mut at = put_word(lines, start, b"\nsun\n");
    let mut holder = usize::from(SUN);
    let mut from = 0;
    let mut depth: usize = 1;
    for _turn in 0..2 * ROOM {
        if let Some(b) = next_under(holders, holder, from) {
            at = put_body(lines, at, b, depth);
            holder = b;
            from = 0;
            depth += 1;
        } else {
            if holders.len() <= holder || depth == 0 {
                return at;
            }
            from = holder + 1;
            holder = usize::from(holders[holder]);
            depth -= 1;
        }
    }
    at
}

// The lowest body from `from` on that hangs in `holder`.
fn next_under(holders: &[u16], holder: usize, from: usize) -> Option<usize> {
    for (b, h) in holders.iter().enumerate().skip(from) {
        if usize::from(*h) == holder {
            return Some(b);
        }
    }
    None
}

// A body's line, two spaces in for each step of its depth.
fn put_body(lines: &mut [u8], at: usize, body: usize, depth: usize) -> usize {
    let mut to = at;
    for _ in 0..depth {
        to = put_word(lines, to, b"  ");
    }
    put_ended(lines, to, body as u64, b'\n')
}
