#![tactic(auto)]
// Whether the mesh file on standard input is all squares: prints the lowest face that has not four sides, else the lowest vertex that has
// not four corners, else `none`, and how many side counts the search read; or why the file is turned down, as `inspect` does.
// The program is named after the question that L7 asks; what it finds is called irregular, as in the rest of the repository.
use lines::{put_ended, say_refusal};
use paper::{Irregular, MOST_CORNERS, MOST_FACES, MOST_NUMBERS, MOST_PAIRS, MeshLists, Search};
use print::mesh_input::{NoMesh, read_mesh};
use streams::output::say_up_to;
use streams::text::put_word;

fn main(rt: HostRuntime) {
    if 1 < streams::arguments::count(rt) {
        streams::output::complain(rt, b"usage: squares < FILE\n");
        return;
    }
    if let Err(NoMesh::Refused(refusal)) = print_input(rt) {
        say_refusal(rt, refusal.number, refusal.place);
    }
}

// Reads the mesh, and prints the answer for it.
fn print_input(rt: HostRuntime) -> Result<(), NoMesh> {
    let mut coordinates = [0i32; MOST_NUMBERS];
    let mut sides = [0u8; MOST_FACES];
    let mut corners = [0u16; MOST_CORNERS];
    let mut sharpness = [0u8; MOST_PAIRS];
    let mesh = read_mesh(
        rt,
        &mut coordinates,
        &mut sides,
        &mut corners,
        &mut sharpness,
    )?;
    let search = irregular::search(MeshLists {
        coordinates: &coordinates[..mesh.numbers],
        sides: &sides[..mesh.faces],
        corners: &corners[..mesh.corners],
        sharpness: &sharpness[..mesh.pairs],
    })?;
    print_search(rt, search);
    Ok(())
}

// The line of what was found, with the number of side counts read.
fn print_search(rt: HostRuntime, search: Search) {
    let mut line = [0u8; 64];
    let found = match search.found {
        Some(Irregular::Face(face)) => put_found(&mut line, b"face ", face),
        Some(Irregular::Vertex(vertex)) => put_found(&mut line, b"vertex ", vertex),
        None => put_word(&mut line, 0, b"none "),
    };
    let word = put_word(&mut line, found, b"read ");
    let end = put_ended(&mut line, word, search.read as u64, b'\n');
    say_up_to(rt, &line, end);
}

// A face or a vertex.
fn put_found(line: &mut [u8], word: &[u8], number: usize) -> usize {
    let name = put_word(line, 0, word);
    put_ended(line, name, number as u64, b' ')
}
