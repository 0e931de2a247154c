#![tactic(auto)]
// Builds the cube of 01 and a tetrahedron, and prints what 01's checked examples print: points of the cube's corner 0, what building
// refuses, and whether a mesh built in one call and built corner by corner, so that every border lies between two calls, gives the
// same numbers. The cube is soft (8 and 8 throughout) and then crisp (16 and 16), and the tetrahedron has corners of all sorts.
ghost use Rattle.std.specs.Prelude.{◌<◌};

use paper::{MeshLists, NUMBERS_PER_CORNER, Refusal};
use streams::output::say_up_to;
use streams::text::{put_entry, put_word};

const COORDINATES: [i32; 24] = [
    3, 3, 3, 3, -3, 3, -3, -3, 3, -3, 3, 3, 3, 3, -3, 3, -3, -3, -3, -3, -3, -3, 3, -3,
];

const SIDES: [u8; 6] = [4, 4, 4, 4, 4, 4];

const CORNERS: [u16; 24] = [
    0, 1, 2, 3, 4, 7, 6, 5, 1, 0, 4, 5, 2, 1, 5, 6, 3, 2, 6, 7, 0, 3, 7, 4,
];

// The numbers of the cube's corners.
const WHOLE: usize = 24 * NUMBERS_PER_CORNER;

fn main(rt: HostRuntime) {
    cube(rt);
    tetrahedron(rt);
}

fn cube(rt: HostRuntime) {
    let soft = MeshLists {
        coordinates: &COORDINATES,
        sides: &SIDES,
        corners: &CORNERS,
        sharpness: &[8u8; 48],
    };
    let crisp = MeshLists {
        sharpness: &[16u8; 48],
        ..soft
    };
    let mut links = [0u16; 24];
    link(rt, b"cube, link", soft, &mut links);
    cube_points(rt, b"cube, build", soft, &links);
    cube_points(rt, b"crisp cube, build", crisp, &links);
    refusals(rt, soft, &links);
    sharpness_refusals(rt, soft, &links);
}

// The cube built as a whole, and its corner 0.
fn cube_points(rt: HostRuntime, what: &[u8], mesh: MeshLists, links: &[u16]) {
    let mut whole = [0i32; WHOLE];
    build(rt, what, mesh, links, 0, 24, &mut whole);
    points(rt, &whole);
    corner_by_corner(rt, mesh, links, &whole);
}

fn tetrahedron(rt: HostRuntime) {
    let mesh = MeshLists {
        coordinates: &[7i32, 1, 0, -5, 9, 2, -6, -8, 3, 1, 2, 11],
        sides: &[3u8, 3, 3, 3],
        corners: &[0u16, 1, 2, 0, 2, 3, 0, 3, 1, 1, 3, 2],
        sharpness: &[
            0u8, 16, 16, 0, 8, 8, 16, 16, 0, 0, 3, 13, 5, 9, 12, 1, 7, 15, 10, 2, 14, 4, 6, 11,
        ],
    };
    let mut links = [0u16; 12];
    let mut whole = [0i32; 12 * NUMBERS_PER_CORNER];
    link(rt, b"tetrahedron, link", mesh, &mut links);
    build(rt, b"tetrahedron, build", mesh, &links, 0, 12, &mut whole);
    corner_by_corner(rt, mesh, &links, &whole);
}

// Points of corner 0 that 01 prints.
fn points(rt: HostRuntime, whole: &[i32; WHOLE]) {
    point(rt, b"b00", whole, 0);
    point(rt, b"b01", whole, 1);
    point(rt, b"b02", whole, 2);
    point(rt, b"b03", whole, 3);
    point(rt, b"b04", whole, 4);
    point(rt, b"b44", whole, 24);
    point(rt, b"a00", whole, 25);
    point(rt, b"a01", whole, 26);
}

// 14 to 17, also where the end of the range would wrap.
fn refusals(rt: HostRuntime, mesh: MeshLists, links: &[u16]) {
    let short = [0u16; 23];
    let other = [0u16; 24];
    attempt(rt, b"short table", mesh, &short, 0, 1);
    attempt(rt, b"other links", mesh, &other, 0, 1);
    attempt(rt, b"no count", mesh, links, 9, 0);
    attempt(rt, b"past the end", mesh, links, 24, 1);
    attempt(rt, b"far past the end", mesh, links, usize::MAX, 1);
    attempt(rt, b"count that wraps", mesh, links, 1, usize::MAX);
    attempt(rt, b"long range", mesh, links, 0, 2);
    attempt(rt, b"last corner", mesh, links, 23, 1);
}

// 27 and 28.
fn sharpness_refusals(rt: HostRuntime, mesh: MeshLists, links: &[u16]) {
    let short = [8u8; 47];
    let mut sharp = [8u8; 48];
    sharp[31] = 17;
    let shortened = MeshLists {
        sharpness: &short,
        ..mesh
    };
    let sharpened = MeshLists {
        sharpness: &sharp,
        ..mesh
    };
    attempt(rt, b"short sharpness", shortened, links, 0, 1);
    attempt(rt, b"sharpness 17", sharpened, links, 0, 1);
}

// Building into room for one corner.
fn attempt(
    rt: HostRuntime,
    what: &[u8],
    mesh: MeshLists,
    links: &[u16],
    first: usize,
    count: usize,
) {
    let mut output = [7i32; NUMBERS_PER_CORNER];
    build(rt, what, mesh, links, first, count, &mut output);
}

// A call of linking, and its line.
fn link(rt: HostRuntime, what: &[u8], mesh: MeshLists, links: &mut [u16]) {
    let answer = linking::link(mesh, links);
    say(rt, what, answer);
}

// A call of building, and its line.
fn build(
    rt: HostRuntime,
    what: &[u8],
    mesh: MeshLists,
    links: &[u16],
    first: usize,
    count: usize,
    output: &mut [i32],
) {
    let answer = build_mesh(mesh, links, first, count, output);
    say(rt, what, answer);
}

fn build_mesh(
    mesh: MeshLists,
    links: &[u16],
    first: usize,
    count: usize,
    output: &mut [i32],
) -> Result<(), Refusal> {
    building::build(mesh, links, first, count, output)
}

// Each corner by a call of its own, compared with the whole.
fn corner_by_corner(rt: HostRuntime, mesh: MeshLists, links: &[u16], whole: &[i32]) {
    for (c, numbers) in whole.chunks_exact(NUMBERS_PER_CORNER).enumerate() {
        if !agrees(mesh, links, numbers, c) {
            streams::output::say(rt, b"a corner built by itself differs\n");
        }
    }
    streams::output::say(rt, b"compared corner by corner\n");
}

// Whether a corner that is built by itself has these numbers.
fn agrees(mesh: MeshLists, links: &[u16], numbers: &[i32], c: usize) -> bool {
    let mut one = [0i32; NUMBERS_PER_CORNER];
    let _ = build_mesh(mesh, links, c, 1, &mut one);
    numbers == one.as_slice()
}

// A line: what was called, and its answer.
fn say(rt: HostRuntime, what: &[u8], answer: Result<(), Refusal>) {
    let mut line = [0u8; 64];
    let name = put_word(&mut line, 0, what);
    let colon = put_word(&mut line, name, b": ");
    let end = match answer {
        Ok(()) => put_word(&mut line, colon, b"done\n"),
        Err(refusal) => lines::put_refusal(&mut line, colon, refusal.number, refusal.place),
    };
    say_up_to(rt, &line, end);
}

// A line: a name and the point with this number.
fn point(rt: HostRuntime, name: &[u8], numbers: &[i32; WHOLE], k: usize)
    requires { k < 41 }
{
    let mut line = [0u8; 64];
    let word = put_word(&mut line, 0, name);
    let space = put_word(&mut line, word, b" ");
    let x = put_entry(&mut line, space, numbers[3 * k], b' ');
    let y = put_entry(&mut line, x, numbers[3 * k + 1], b' ');
    let z = put_entry(&mut line, y, numbers[3 * k + 2], b'\n');
    say_up_to(rt, &line, z);
}
