#![tactic(auto)]
// Writes the mesh of the OFF text on standard input as a .dms file on standard output. A text that is turned down gets the line `refused`,
// with number and place, on standard error, and nothing on standard output; so does one that is longer than 1 MiB, with another line. With the
// argument `as-drawn` the lists are written as the text has them, checked by 24, 25, 26 and 4 alone, for `turn` to check the rest.
ghost use Rattle.off_words.specs.Cursor.{Before};

use lines::complain_refusal;
use off_words::Cursor;
use paper::{Lengths, MOST_CORNERS, MOST_FACES, MOST_NUMBERS, MOST_PAIRS, MeshLists, Refusal};
use streams::output::complain;

// The longest text. The buffer has a byte more, which a longer text fills.
const MOST_BYTES: usize = 1048576;

const BUFFER: usize = MOST_BYTES + 1;

// Which checks a text has to pass: every one, or those of the words and counts alone.
#[derive(Clone, Copy)]
enum Checks {
    All,
    AsDrawn,
}

fn main(rt: HostRuntime) {
    match asked(rt) {
        None => complain(rt, b"usage: off2dms [as-drawn] < TEXT > FILE\n"),
        Some(checks) => read_text(rt, checks),
    }
}

// What the arguments ask, if they are known ones.
fn asked(rt: HostRuntime) -> Option<Checks> {
    let count = streams::arguments::count(rt);
    if count < 2 {
        return Some(Checks::All);
    }
    let mut word = [0u8; 9];
    match streams::arguments::get(rt, 1, &mut word) {
        Ok(held) if count == 2 && &word[..held] == b"as-drawn".as_slice() => Some(Checks::AsDrawn),
        _ => None,
    }
}

fn read_text(rt: HostRuntime, checks: Checks) {
    let mut text = [0u8; BUFFER];
    run(rt, &mut text, checks);
}

// The buffer goes on as a slice: of its zeros, too many for a proof to count, only the type tells the length.
fn run(rt: HostRuntime, text: &mut [u8; BUFFER], checks: Checks) {
    read_and_convert(rt, text, checks);
}

// Reads the text into the buffer, and writes the file.
fn read_and_convert(rt: HostRuntime, text: &mut [u8], checks: Checks) {
    let Ok(held) = streams::input::read_up_to(rt, &mut rt.stdin(), b"standard input", text) else {
        return;
    };
    if MOST_BYTES < held {
        complain(rt, b"standard input: longer than 1048576 bytes\n");
        return;
    }
    match checks {
        Checks::All => convert(rt, &text[..held]),
        Checks::AsDrawn => convert_drawn(rt, &text[..held]),
    }
}

// Reads the text, and writes the file when every check has passed.
fn convert(rt: HostRuntime, text: &[u8]) {
    let mut coordinates = [0i32; MOST_NUMBERS];
    let mut sides = [0u8; MOST_FACES];
    let mut corners = [0u16; MOST_CORNERS];
    let mut sharpness = [0u8; MOST_PAIRS];
    let read = off::read(
        text,
        &mut coordinates,
        &mut sides,
        &mut corners,
        &mut sharpness,
    );
    match read {
        Err(Refusal { number, place }) => complain_refusal(rt, number, place),
        Ok(lengths) => {
            let n = lengths.coordinates.min(MOST_NUMBERS);
            let f = lengths.sides.min(MOST_FACES);
            let k = lengths.corners.min(MOST_CORNERS);
            let p = lengths.sharpness.min(MOST_PAIRS);
            dms_output::say_file(
                rt,
                MeshLists {
                    coordinates: &coordinates[..n],
                    sides: &sides[..f],
                    corners: &corners[..k],
                    sharpness: &sharpness[..p],
                },
            );
        }
    }
}

// Check 24, and then the lists as they are drawn.
fn convert_drawn(rt: HostRuntime, text: &[u8]) {
    match off_words::read_mark(text) {
        Some(start) => write_drawn(rt, text, start),
        None => complain_refusal(rt, 24, 0),
    }
}

// Reads the words from the first count on, and writes the file when they and the counts pass. An empty sharpness list is 8 throughout, so that
// the file is of version 1.
fn write_drawn(rt: HostRuntime, text: &[u8], c: Cursor)
    requires { Before text.now 1 c }
{
    let mut coordinates = [0i32; MOST_NUMBERS];
    let mut sides = [0u8; MOST_FACES];
    let mut corners = [0u16; MOST_CORNERS];
    match read_drawn(text, c, &mut coordinates, &mut sides, &mut corners) {
        Err(Refusal { number, place }) => complain_refusal(rt, number, place),
        Ok(lengths) => {
            let n = lengths.coordinates.min(MOST_NUMBERS);
            let f = lengths.sides.min(MOST_FACES);
            let k = lengths.corners.min(MOST_CORNERS);
            dms_output::say_file(
                rt,
                MeshLists {
                    coordinates: &coordinates[..n],
                    sides: &sides[..f],
                    corners: &corners[..k],
                    sharpness: b"",
                },
            );
        }
    }
}

// The lists as they are drawn, with checks 25 and 26, and 4 of their lengths.
fn read_drawn(
    text: &[u8],
    c: Cursor,
    coordinates: &mut [i32],
    sides: &mut [u8],
    corners: &mut [u16],
) -> Result<Lengths, Refusal>
    requires { Before text.now 1 c }
{
    let lengths = off_lists::read_words(text, c, coordinates, sides, corners)?;
    list_checks::check_lengths(lengths.coordinates, lengths.sides, lengths.corners)?;
    Ok(lengths)
}
