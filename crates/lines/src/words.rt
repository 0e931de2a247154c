// A refusal in words, for standard error: `refused`, its number, what its place is and the place, and what is wrong. The rows are those of
// include/mahunopi.h, which a test compares; contracts leave their words free.
ghost use Rattle.std.specs.Prelude.{◌≤◌, length};
ghost use Rattle.streams.specs.text.Text.{Put};
ghost use Rattle.lines.specs.words.Worded.{placed, PlacePut, Worded};

use streams::text::{put_byte, put_number, put_word};

// Room for the longest line.
pub(crate) const ROOM: usize = 256;

// The line of a refusal. A row that says not what the place is has always the same one, and the line leaves it out.
pub(crate) fn put_worded(lines: &mut [u8], number: u8, place: usize) -> usize
    ensures { Worded lines.old number place lines.new result }
{
    let word = put_word(lines, 0, b"refused ");
    let first = put_number(lines, word, u64::from(number));
    let last = put_row(
        lines,
        first,
        b"1: the file has fewer than 11 bytes or another mark than DMS
2: the file's version is neither 1 nor 2
3: the file's length is not 11 + 12 times vertices + faces + 2 times corners, plus twice the corners in version 2
4: no entries in a list or more than the limits, or a coordinate count that is no multiple of three
5 at face: a side count is outside 3 to 16
6 at sum: the side counts do not sum to the corner count
7 at position in the list: a coordinate is outside -65,536 to 65,536
8 at corner: a corner names a vertex not below the vertex count
9 at corner: a corner names the vertex of an earlier corner of its face
10 at corner: a leaving edge, with its direction, already left an earlier corner
11 at corner: a leaving edge has no reverse among the leaving edges
12 at vertex: a vertex is named by fewer than 3 or more than 16 corners
13 at vertex: a vertex has a corner not met when following links from its lowest corner
14 at length: the link table's length is not the corner count
15 at corner: the link table differs from what linking writes
16 at first corner: the count asked is 0, or the first corner plus the count exceeds the corner count
17 at length: the output's length is not 123 times the count
18 at length: the list of a corner's numbers is not 123 long
19 at position in the list: a number in a corner's list is outside -2^27 to 2^27
20 at point: the point number is above 40
21: there are no bodies, above 256, or the listing's length differs from the bodies'
22 at body: a number is neither below the body count nor 65,535
23 at body: a chain does not end at the Sun
24: a lent list is shorter than every mesh may need, or the text's first word is missing or not OFF
25 at word: a needed word of the text is missing, no whole number of at most nine digits, or out of its range
26 at word: a word stands after the last face
27 at length: the sharpness list is not twice as long as the corner list
28 at position in the sharpness list: a sharpness number is above 16
29 at vertex: the vertex is not below a third of the coordinate list's length, rounded down
30 at length: the number list's length is no multiple of three
31 at length: the byte list is not four times as long as the number list
32 at side: the side is above 3
33 at number of parts: the number of parts is outside 1 to 16, or the weights do not sum to it
34 at corner: an edge, its direction ignored, is not in exactly two faces
35 at face: no choice of turns makes the model pass 10 and 11
36 at length: the listing's length is not the face count
37: a page counts 4,096 meshes or more; two pages to be merged count more than 4,096
38: a number on a page is above 2^40
",
        number,
        place as u64,
    );
    put_byte(lines, last, b'\n')
}

// A number's row after the number, with the place before the colon; nothing where there is no such row. The first row is that of 1.
fn put_row(lines: &mut [u8], at: usize, rows: &[u8], number: u8, place: u64) -> usize
    ensures { PlacePut lines.old at place lines.new result }
{
    let row = rows
        .split(|byte| *byte == b'\n')
        .nth(usize::from(number.saturating_sub(1)))
        .unwrap_or(b"");
    let digits = row.iter().take_while(|byte| byte.is_ascii_digit()).count();
    let row = &row[digits..];
    let Some(colon) = row.iter().position(|byte| *byte == b':') else {
        return at;
    };
    let to = put_place(lines, at, &row[..colon], place);
    put_word(lines, to, &row[colon..])
}

// What the place is, and the place, where the row says it.
fn put_place(lines: &mut [u8], at: usize, name: &[u8], place: u64) -> usize
    ensures { Put lines.old at (placed name.now place) lines.new result }
{
    if name.is_empty() {
        return at;
    }
    let word = put_word(lines, at, name);
    let space = put_byte(lines, word, b' ');
    put_number(lines, space, place)
}
