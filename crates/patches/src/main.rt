#![tactic(auto)]
// Prints the control points of every corner of the mesh file on standard input, in ticks: a line `corner N`, then 41 lines of
// x, y, z, the b points row by row and then the a points; or why the file is turned down, as `inspect` does.
ghost use Rattle.std.specs.Prelude.{◌*◌, ◌≤◌, ◌<◌, length};
ghost use Rattle.paper.specs.Mesh.{most_corners};

use lines::say_refusal;
use paper::{
    MOST_CORNERS, MOST_FACES, MOST_NUMBERS, MOST_PAIRS, MeshLists, NUMBERS_PER_CORNER, Refusal,
};
use print::mesh_input::{NoMesh, read_mesh};
use streams::output::say_up_to;
use streams::text::put_entry;

// The corners of one call of building, and their numbers.
const RANGE: usize = 64;

const RANGE_NUMBERS: usize = NUMBERS_PER_CORNER * RANGE;

// Room for a corner's 42 lines.
const LINES_ROOM: usize = 2048;

fn main(rt: HostRuntime) {
    if 1 < streams::arguments::count(rt) {
        streams::output::complain(rt, b"usage: patches < FILE\n");
        return;
    }
    if let Err(NoMesh::Refused(refusal)) = print_input(rt) {
        say_refusal(rt, refusal.number, refusal.place);
    }
}

// Reads the mesh, and prints its corners.
fn print_input(rt: HostRuntime) -> Result<(), NoMesh> {
    let mut coordinates = [0i32; MOST_NUMBERS];
    let mut sides = [0u8; MOST_FACES];
    let mut corners = [0u16; MOST_CORNERS];
    let mut sharpness = [0u8; MOST_PAIRS];
    let mesh = read_mesh(
        rt,
        &mut coordinates,
        &mut sides,
        &mut corners,
        &mut sharpness,
    )?;
    print_mesh(
        rt,
        MeshLists {
            coordinates: &coordinates[..mesh.numbers],
            sides: &sides[..mesh.faces],
            corners: &corners[..mesh.corners],
            sharpness: &sharpness[..mesh.pairs],
        },
    )?;
    Ok(())
}

// Prints all corners of a mesh, with room for its link table.
fn print_mesh(rt: HostRuntime, mesh: MeshLists) -> Result<(), Refusal> {
    let mut links = [0u16; MOST_CORNERS];
    let count = mesh.corners.len().min(MOST_CORNERS);
    print_linked(rt, mesh, &mut links[..count])
}

// Links the mesh and prints all its corners.
fn print_linked(rt: HostRuntime, mesh: MeshLists, links: &mut [u16]) -> Result<(), Refusal> {
    linking::link(mesh, links)?;
    print_ranges(rt, mesh, links);
    Ok(())
}

// Builds and prints one range of corners after the other, as long as writing goes well.
fn print_ranges(rt: HostRuntime, mesh: MeshLists, links: &[u16]) {
    let end = mesh.corners.len().min(MOST_CORNERS);
    for first in (0..end).step_by(RANGE) {
        if !print_range(rt, mesh, links, first, RANGE.min(end - first)) {
            return;
        }
    }
}

// Builds and prints a range.
fn print_range(rt: HostRuntime, mesh: MeshLists, links: &[u16], first: usize, count: usize) -> bool
    requires { (first < most_corners) × (count ≤ 64) }
{
    let mut output = [0i32; RANGE_NUMBERS];
    let numbers = &mut output[..NUMBERS_PER_CORNER * count];
    let built = building::build(mesh, links, first, count, numbers);
    match built {
        Ok(()) => print_corners(rt, numbers, first),
        Err(refusal) => say_refusal(rt, refusal.number, refusal.place),
    }
}

// Prints the corners of a range, as long as writing goes well.
fn print_corners(rt: HostRuntime, output: &[i32], first: usize) -> bool
    requires { (first < most_corners) × (length output.now ≤ 123 * 64) }
{
    for (i, numbers) in output.chunks_exact(NUMBERS_PER_CORNER).enumerate() {
        if !print_corner(rt, numbers, first + i) {
            return false;
        }
    }
    true
}

// The lines of one corner, in one write.
fn print_corner(rt: HostRuntime, numbers: &[i32], corner: usize) -> bool {
    let mut lines = [0u8; LINES_ROOM];
    let word = streams::text::put_word(&mut lines, 0, b"corner ");
    let first = lines::put_ended(&mut lines, word, corner as u64, b'\n');
    let end = put_points(&mut lines, first, numbers);
    say_up_to(rt, &lines, end)
}

// Puts the numbers of one corner, three in a line.
fn put_points(lines: &mut [u8], from: usize, numbers: &[i32]) -> usize {
    let mut at = from;
    for (i, number) in numbers.iter().enumerate() {
        let last = if i % 3 == 2 { b'\n' } else { b' ' };
        at = put_entry(lines, at, *number, last);
    }
    at
}
