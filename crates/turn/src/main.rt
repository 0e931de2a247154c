#![tactic(auto)]
// Turns the faces of the mesh file on standard input that are drawn the wrong way round: the turned file, of the version that the input has, goes to
// standard output, and the turned faces to standard error, one number a line. A file that is turned down gets the line `refused`, with number and
// place, on standard error, and nothing on standard output.
ghost use Rattle.dms_lists.specs.header.ListsWithin.{ListsWithin};

use lines::{complain_refusal, put_ended};
use paper::{MOST_CORNERS, MOST_FACES, MOST_NUMBERS, MOST_PAIRS, MeshLists, Refusal};
use print::file_input::{BUFFER, read_file};
use streams::output::{complain, complain_up_to, say_up_to};

// Room for a line for each face, its number of at most four digits.
const LINES_ROOM: usize = 5 * MOST_FACES;

fn main(rt: HostRuntime) {
    if 1 < streams::arguments::count(rt) {
        complain(rt, b"usage: turn < FILE > FILE\n");
        return;
    }
    turn_input(rt);
}

// Reads the file.
fn turn_input(rt: HostRuntime) {
    let mut bytes = [0u8; BUFFER];
    if let Ok(read) = read_file(rt, &mut rt.stdin(), b"standard input", &mut bytes) {
        turn_file(rt, &bytes[..read.held], read.counted);
    }
}

// Checks what the header says: 1 to 3, and 4.
fn turn_file(rt: HostRuntime, file: &[u8], counted: usize) {
    match dms_lists::header::check_header(file, counted) {
        Ok(()) => turn_lists(rt, file),
        Err(Refusal { number, place }) => complain_refusal(rt, number, place),
    }
}

// Reads the lists of a file whose header passes.
fn turn_lists(rt: HostRuntime, file: &[u8])
    requires { ListsWithin file.now }
{
    let mut coordinates = [0i32; MOST_NUMBERS];
    let mut sides = [0u8; MOST_FACES];
    let mut corners = [0u16; MOST_CORNERS];
    let mut sharpness = [0u8; MOST_PAIRS];
    dms_lists::lists::read_lists(
        file,
        &mut coordinates,
        &mut sides,
        &mut corners,
        &mut sharpness,
    );
    let sharp = dms_lists::header::is_sharp(file);
    let numbers = (3 * dms_lists::header::vertex_count(file)).min(MOST_NUMBERS);
    let faces = dms_lists::header::face_count(file).min(MOST_FACES);
    let count = dms_lists::header::corner_count(file).min(MOST_CORNERS);
    let pairs = 2 * count;
    turn_mesh(
        rt,
        sharp,
        &coordinates[..numbers],
        &sides[..faces],
        &mut corners[..count],
        &mut sharpness[..pairs],
    );
}

// Lends a listing with an entry for each face.
fn turn_mesh(
    rt: HostRuntime,
    sharp: bool,
    coordinates: &[i32],
    sides: &[u8],
    corners: &mut [u16],
    sharpness: &mut [u8],
) {
    let mut listing = [0u16; MOST_FACES];
    let faces = sides.len().min(MOST_FACES);
    turn_faces(
        rt,
        sharp,
        coordinates,
        sides,
        corners,
        sharpness,
        &mut listing[..faces],
    );
}

// Turns the faces, and writes the file and the listing when every check has passed.
fn turn_faces(
    rt: HostRuntime,
    sharp: bool,
    coordinates: &[i32],
    sides: &[u8],
    corners: &mut [u16],
    sharpness: &mut [u8],
    listing: &mut [u16],
) {
    match turning::turn(coordinates, sides, corners, sharpness, listing) {
        Ok(turned) => {
            if say_turned(rt, sharp, coordinates, sides, corners, sharpness) {
                complain_listing(rt, listing, turned);
            }
        }
        Err(Refusal { number, place }) => complain_refusal(rt, number, place),
    }
}

// Writes the file to standard output, and answers whether it was written.
fn say_turned(
    rt: HostRuntime,
    sharp: bool,
    coordinates: &[i32],
    sides: &[u8],
    corners: &[u16],
    sharpness: &[u8],
) -> bool {
    let mut file = [0u8; BUFFER];
    let end = dms_output::put_file(
        &mut file,
        sharp,
        MeshLists {
            coordinates,
            sides,
            corners,
            sharpness,
        },
    );
    say_up_to(rt, &file, end)
}

// Writes the beginning of the listing to standard error, one number a line.
fn complain_listing(rt: HostRuntime, listing: &[u16], turned: usize) {
    let mut lines = [0u8; LINES_ROOM];
    let count = turned.min(listing.len());
    let end = put_listing(&mut lines, &listing[..count]);
    complain_up_to(rt, &lines, end);
}

// The lines of the entries.
fn put_listing(lines: &mut [u8], listing: &[u16]) -> usize {
    let mut at = 0;
    for face in listing {
        at = put_ended(lines, at, u64::from(*face), b'\n');
    }
    at
}
