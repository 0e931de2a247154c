#![tactic(auto)]
// Runs linking on the meshes of standard input and prints a line for each. An input line has a name, a colon, and then coordinates, side
// counts, corner list, sharpness list and the link table's length, parted by slashes; `0*24` stands for twenty-four zeros.
// An output line has the name and `done` with a sum over the link table, or `refused` with number and place; a table that a refusal did
// not keep would show as `changed`.
use paper::{MeshLists, Refusal};
use streams::input::fill;
use streams::output::{say, say_up_to};
use streams::text::put_number;

// More entries than any list has.
const ROOM: usize = 16400;

// What is read of a line so far.
#[derive(Clone, Copy)]
struct CaseLine {
    start: usize,
    // 0 until there is one, and the list at hand
    colon: usize,
    list: usize,
    coordinates: usize,
    faces: usize,
    corners: usize,
    sharpness: usize,
    table: usize,
    // the number at hand, if there is one, whether it is negative, and what it repeats
    value: Option<usize>,
    minus: bool,
    repeated: Option<usize>,
}

// The lists of a case, each at the beginning of its space.
#[derive(Drop)]
struct Lists<'a> {
    coordinates: &'a mut [i32; ROOM],
    sides: &'a mut [u8; ROOM],
    corners: &'a mut [u16; ROOM],
    sharpness: &'a mut [u8; ROOM],
}

fn main(rt: HostRuntime) {
    let mut text = [0u8; 65536];
    let mut lists = Lists {
        coordinates: &mut [0i32; ROOM],
        sides: &mut [0u8; ROOM],
        corners: &mut [0u16; ROOM],
        sharpness: &mut [0u8; ROOM],
    };
    let mut links = [0u16; ROOM];
    let n = match fill(&mut rt.stdin(), &mut text) {
        Ok(n) => n,
        Err(failed) => failed.count,
    };
    lines(rt, &text[..n], &mut lists, &mut links);
}

// Byte by byte.
fn lines(rt: HostRuntime, text: &[u8], lists: &mut Lists, links: &mut [u16; ROOM]) {
    let mut line = fresh(0);
    for i in 0..text.len() {
        match text[i] {
            b'\n' => {
                line = put(line, lists);
                run(rt, text, line, lists, links);
                line = fresh(i + 1);
            }
            b' ' => line = put(line, lists),
            b => line = read(line, i, b),
        }
    }
}

// An empty line.
fn fresh(start: usize) -> CaseLine {
    CaseLine {
        start,
        colon: 0,
        list: 0,
        coordinates: 0,
        faces: 0,
        corners: 0,
        sharpness: 0,
        table: 0,
        value: None,
        minus: false,
        repeated: None,
    }
}

// One byte that ends no number.
fn read(line: CaseLine, i: usize, b: u8) -> CaseLine {
    let mut l = line;
    match b {
        b':' => {
            l.colon = i;
            l.value = None;
            l.minus = false;
            l.repeated = None;
        }
        b'/' => {
            if l.list < 5 {
                l.list += 1;
            }
        }
        b'-' => l.minus = true,
        b'*' => {
            l.repeated = Some(l.value.unwrap_or(0));
            l.value = l.value.map(|_| 0);
        }
        b'0'..=b'9' => l.value = Some(decimal(l.value.unwrap_or(0), b - b'0')),
        _ => {}
    }
    l
}

// The number with one more digit, below a million.
fn decimal(value: usize, digit: u8) -> usize {
    (value % 100000) * 10 + usize::from(digit)
}

// The number at hand goes to the end of its list.
fn put(line: CaseLine, lists: &mut Lists) -> CaseLine {
    let mut l = line;
    let Some(number) = l.value else {
        return l;
    };
    if l.colon == 0 {
        return l;
    }
    let (value, times) = match l.repeated {
        Some(repeated) => (repeated, number),
        None => (number, 1),
    };
    match l.list {
        0 => l.coordinates = put_times(
            lists.coordinates,
            l.coordinates,
            signed(value, l.minus),
            times,
        ),
        1 => l.faces = put_times(lists.sides, l.faces, (value % 256) as u8, times),
        2 => l.corners = put_times(lists.corners, l.corners, (value % 65536) as u16, times),
        3 => l.sharpness = put_times(lists.sharpness, l.sharpness, (value % 256) as u8, times),
        4 => l.table = value,
        _ => {}
    }
    l.value = None;
    l.minus = false;
    l.repeated = None;
    l
}

// A number below a million, or its negative: the complement of one less. No negation says the same: -0 is -1,000,000 here, and the stored cases hold it.
fn signed(value: usize, minus: bool) -> i32 {
    if minus {
        let less = (value % 1000000 + 999999) % 1000000;
        !(less as i32)
    } else {
        (value % 1000000) as i32
    }
}

// An entry so many times, as far as the list reaches; answers where its entries end.
fn put_times<T: Copy>(list: &mut [T; ROOM], at: usize, value: T, times: usize) -> usize {
    let end = at.saturating_add(times).min(ROOM);
    if let Some(space) = list.get_mut(at..end) {
        for entry in space {
            *entry = value;
        }
    }
    end
}

// One case, and its line.
fn run(rt: HostRuntime, text: &[u8], line: CaseLine, lists: &Lists, links: &mut [u16; ROOM]) {
    // what a refusal must keep
    links.fill(47806);
    let before = sum(links);
    let answer = call(line, lists, links);
    let after = sum(links);
    name(rt, text, line.start, line.colon);
    match answer {
        Ok(()) => {
            say(rt, b": done ");
            number(rt, after);
        }
        Err(refusal) => {
            say(rt, b": refused ");
            number(rt, u64::from(refusal.number));
            say(rt, b" ");
            number(rt, refusal.place as u64);
            if after != before {
                say(rt, b" changed");
            }
        }
    }
    say(rt, b"\n");
}

// Linking, on the beginnings of the lists.
fn call(line: CaseLine, lists: &Lists, links: &mut [u16; ROOM]) -> Result<(), Refusal> {
    linking::link(
        MeshLists {
            coordinates: &lists.coordinates[..line.coordinates.min(ROOM)],
            sides: &lists.sides[..line.faces.min(ROOM)],
            corners: &lists.corners[..line.corners.min(ROOM)],
            sharpness: &lists.sharpness[..line.sharpness.min(ROOM)],
        },
        &mut links[..line.table.min(ROOM)],
    )
}

fn name(rt: HostRuntime, text: &[u8], start: usize, end: usize) {
    let end = end.min(text.len());
    say(rt, &text[start.min(end)..end]);
}

// The sum of each entry times its distance from the table's end.
fn sum(table: &[u16; ROOM]) -> u64 {
    let mut entries: u64 = 0;
    let mut total: u64 = 0;
    for entry in table {
        entries = entries.wrapping_add(u64::from(*entry));
        total = total.wrapping_add(entries);
    }
    total
}

fn number(rt: HostRuntime, n: u64) {
    let mut digits = [0u8; 20];
    let end = put_number(&mut digits, 0, n);
    say_up_to(rt, &digits, end);
}
