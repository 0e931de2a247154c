#![tactic(auto)]
// Lines that programs print, put into a lent buffer, with the bytes that it then holds stated: those of `inspect`, and a refusal as a line and in words.
mod words;

ghost use Rattle.std.specs.Prelude.{◌≡◌, take, ◌+◌};
ghost use Rattle.io.specs.Counts.{IsPrefixLen as Within};
ghost use Rattle.paper.specs.Mesh.{most_sides};
ghost use Rattle.streams.specs.text.Text.{Put};
ghost use Rattle.lines.specs.Lines.{ended, three_line, refused_line, count_line, count_lines, mesh_lines, summary_lines};

use paper::{Counts, NUMBERS, Refusal};
use streams::output;
use streams::text::{put_byte, put_number, put_word};

// Room for all that is printed of a file: a line for it and one for each m, none of them longer than 63 bytes after the word.
pub const ANSWER: usize = 64 * (NUMBERS + 1);

// A number, and the byte that ends it.
pub fn put_ended(lines: &mut [u8], at: usize, n: u64, last: u8) -> usize
    ensures { Put lines.old at (ended n last) lines.new result }
{
    let to = put_number(lines, at, n);
    put_byte(lines, to, last)
}

// Three numbers, one space between them, and a line feed.
fn put_three(lines: &mut [u8], at: usize, a: u64, b: u64, c: u64) -> usize
    ensures { Put lines.old at (three_line a b c) lines.new result }
{
    let first = put_ended(lines, at, a, b' ');
    let second = put_ended(lines, first, b, b' ');
    put_ended(lines, second, c, b'\n')
}

// `refused`, the number and the place.
pub fn put_refusal(lines: &mut [u8], at: usize, number: u8, place: usize) -> usize
    ensures { Put lines.old at (refused_line number place) lines.new result }
{
    let word = put_word(lines, at, b"refused ");
    let first = put_ended(lines, word, u64::from(number), b' ');
    put_ended(lines, first, place as u64, b'\n')
}

// The line of m, left out where both numbers are zero.
fn put_count(lines: &mut [u8], at: usize, m: usize, vertices: u16, faces: u16) -> usize
    ensures { Put lines.old at (count_line m vertices faces) lines.new result }
{
    let v = u64::from(vertices);
    let f = u64::from(faces);
    if v + f == 0 {
        return at;
    }
    put_three(lines, at, m as u64, v, f)
}

// The lines of all m.
fn put_counts(
    lines: &mut [u8],
    from: usize,
    cornered: &[u16; NUMBERS],
    sided: &[u16; NUMBERS],
) -> usize
    ensures { Put lines.old from (count_lines cornered.now sided.now (most_sides + 1)) lines.new result }
{
    let mut at = from;
    for m in 0..NUMBERS {
        at = put_count(lines, at, m, cornered[m], sided[m]);
    }
    at
}

// `mesh` with the vertices, faces and corners; then the lines of all m.
fn put_mesh(lines: &mut [u8], at: usize, counts: Counts) -> usize
    ensures { Put lines.old at (mesh_lines counts) lines.new result }
{
    let word = put_word(lines, at, b"mesh ");
    let first = put_three(
        lines,
        word,
        counts.vertices as u64,
        counts.faces as u64,
        counts.corners as u64,
    );
    put_counts(lines, first, &counts.cornered, &counts.sided)
}

// What `inspect` prints of a summary.
pub fn put_summary(lines: &mut [u8; ANSWER], summary: Result<Counts, Refusal>) -> usize
    ensures within { Within result lines.new }
    ensures lines_after { take result lines.new ≡ summary_lines summary }
{
    match summary {
        Ok(counts) => put_mesh(lines, 0, counts),
        Err(refusal) => put_refusal(lines, 0, refusal.number, refusal.place),
    }
}

// Prints the line of a refusal, and says it in words on standard error. Answers whether the line was written.
pub fn say_refusal(rt: HostRuntime, number: u8, place: usize) -> bool {
    let mut line = [0u8; 64];
    let end = put_refusal(&mut line, 0, number, place);
    let ok = output::say_up_to(rt, &line, end);
    complain_refusal(rt, number, place);
    ok
}

// Says a refusal in words on standard error.
pub fn complain_refusal(rt: HostRuntime, number: u8, place: usize) {
    let mut line = [0u8; words::ROOM];
    let end = words::put_worded(&mut line, number, place);
    output::complain_up_to(rt, &line, end);
}
