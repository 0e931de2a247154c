#![tactic(auto)]
// The words of an OFF text after the mark, read in their order into own lists, with checks 25 and 26. The text is read once, each word's number taken from
// its bytes when its end is found. A word that is missing or no number of its kind ends the reading before it. Numbers past the end of an own list are read
// and not kept: how many there are is all that 4 asks.
ghost use Rattle.std.specs.Prelude.{◌≡◌, ◌+◌, ◌<◌, ◌≤◌, set};
ghost use Rattle.paper.specs.Off.{coordinate, vertex_number, words_of, value_at, natural_at};
ghost use Rattle.off_words.specs.Cursor.{Before};
ghost use Rattle.off_lists.specs.Reading.{NaturalRead, HeaderRead, ListRead, FaceRead, FacesRead, WordsRead};

use off_words::Cursor;
use paper::{Lengths, Refusal};

// Checks 25 and 26, with the lists in own ones as far as these reach. What these hold after the lists, or beside a refusal, is free: no caller reads it.
// The fourth length is told with the fourth list, after the last check.
pub fn read_words(
    text: &[u8],
    c: Cursor,
    coordinates: &mut [i32],
    sides: &mut [u8],
    corners: &mut [u16],
) -> Result<Lengths, Refusal>
    requires { Before text.now 1 c }
    ensures { WordsRead text.now result coordinates.new sides.new corners.new }
{
    let header = read_header(text, c)?;
    let count = 3 * header.vertices;
    let faces_start = read_coordinates(text, header.next, count, coordinates)?;
    let faces = read_faces(text, faces_start, header.faces, sides, corners)?;
    let end = faces.next;
    if end.has_word(text) {
        return Err(Refusal {
            number: 26,
            place: end.word,
        });
    }
    Ok(Lengths {
        coordinates: count,
        sides: header.faces,
        corners: faces.corners,
        sharpness: 0,
    })
}

// The largest count and vertex number, and the largest side count.
const MOST_COUNT: usize = 65535;

const MOST_SIDE_COUNT: usize = 255;

// A word as a number from 0 on, and a cursor before the next word.
#[derive(Clone, Copy)]
pub struct Natural {
    pub value: usize,
    pub next: Cursor,
}

// The counts of vertices and faces, and a cursor after the three counts.
#[derive(Clone, Copy)]
pub struct Header {
    pub next: Cursor,
    pub vertices: usize,
    pub faces: usize,
}

// The side count of a face, and a cursor after its corners.
#[derive(Clone, Copy)]
pub struct ReadFace {
    pub next: Cursor,
    pub sides: usize,
}

// The corners of all faces, and a cursor after them.
#[derive(Clone, Copy)]
pub struct ReadFaces {
    pub next: Cursor,
    pub corners: usize,
}

// 25, at the word that comes next.
fn bad_word(c: Cursor) -> Refusal
    ensures { result ≡ record { number = 25; place = c.word } }
{
    Refusal {
        number: 25,
        place: c.word,
    }
}

// The next word as a number from 0 to a largest.
fn read_natural(text: &[u8], c: Cursor, most: usize) -> Result<Natural, Refusal>
    requires { Before text.now c.word c }
    ensures { NaturalRead text.now c.word most result }
{
    let n = c.number(text).ok_or(bad_word(c))?;
    match usize::try_from(n.value) {
        Ok(value) if value <= most => Ok(Natural {
            value,
            next: n.next,
        }),
        _ => Err(bad_word(c)),
    }
}

// The counts of vertices, faces and edges. The edge count is checked as the others are, and not used.
fn read_header(text: &[u8], c: Cursor) -> Result<Header, Refusal>
    requires { Before text.now 1 c }
    ensures { HeaderRead text.now result }
{
    let v = read_natural(text, c, MOST_COUNT)?;
    let f = read_natural(text, v.next, MOST_COUNT)?;
    let e = read_natural(text, f.next, MOST_COUNT)?;
    Ok(Header {
        next: e.next,
        vertices: v.value,
        faces: f.value,
    })
}

// An entry of an own list, if it has that entry.
fn put<T: Copy>(list: &mut [T], i: usize, value: T)
    ensures { list.new ≡ set list.old i value }
{
    if i < list.len() {
        list[i] = value;
    }
}

// So many coordinates.
fn read_coordinates(
    text: &[u8],
    c: Cursor,
    count: usize,
    list: &mut [i32],
) -> Result<Cursor, Refusal>
    requires { Before text.now c.word c }
    ensures { ListRead text.now coordinate (value_at (words_of text.now) coordinate) c.word count 0 list.old list.new result }
{
    let mut next = c;
    for i in 0..count {
        let n = next.number(text).ok_or(bad_word(next))?;
        put(list, i, n.value);
        next = n.next;
    }
    Ok(next)
}

// So many corners of a face, with `at` corners before them.
fn read_corners(
    text: &[u8],
    c: Cursor,
    count: usize,
    list: &mut [u16],
    at: usize,
) -> Result<Cursor, Refusal>
    requires { Before text.now c.word c × (at + count < 18446744073709551616) }
    ensures { ListRead text.now vertex_number (natural_at (words_of text.now) vertex_number) c.word count at list.old list.new result }
{
    let mut next = c;
    for i in 0..count {
        let n = read_natural(text, next, MOST_COUNT)?;
        put(list, at + i, n.value as u16);
        next = n.next;
    }
    Ok(next)
}

// A face, the one with this number, with `at` corners before its own.
fn read_face(
    text: &[u8],
    c: Cursor,
    sides: &mut [u8],
    face: usize,
    corners: &mut [u16],
    at: usize,
) -> Result<ReadFace, Refusal>
    requires { Before text.now c.word c × (at < 18446744073709551000) }
    ensures { FaceRead text.now c.word face at sides.old corners.old result sides.new corners.new }
{
    let s = read_natural(text, c, MOST_SIDE_COUNT)?;
    put(sides, face, s.value as u8);
    let next = read_corners(text, s.next, s.value, corners, at)?;
    Ok(ReadFace {
        next,
        sides: s.value,
    })
}

// So many faces.
fn read_faces(
    text: &[u8],
    c: Cursor,
    count: usize,
    sides: &mut [u8],
    corners: &mut [u16],
) -> Result<ReadFaces, Refusal>
    requires { Before text.now c.word c × (count ≤ 65535) }
    ensures { FacesRead text.now c.word count sides.old corners.old result sides.new corners.new }
{
    let mut next = c;
    let mut k = 0;
    for f in 0..count {
        let face = read_face(text, next, sides, f, corners, k)?;
        next = face.next;
        k += face.sides;
    }
    Ok(ReadFaces { next, corners: k })
}
