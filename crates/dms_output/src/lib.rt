#![tactic(auto)]
// The bytes of a mesh file, put into a lent buffer: of version 2, which has a sharpness list, or of version 1, which reads as 8 and 8 throughout.
ghost use Rattle.std.specs.Prelude.{◌≡◌, ◌/◌, length};
ghost use Rattle.paper.specs.Mesh.{of_lists};
ghost use Rattle.streams.specs.text.Text.{Put};
ghost use Rattle.dms_output.specs.Bytes.{half_bytes, word_bytes, coordinate_bytes, corner_bytes, header_bytes, list_bytes, file_bytes, TellsPlain, ShortestPut};

use paper::{MeshLists, PLAIN};
use streams::output::say_up_to;
use streams::text::put_word;

// The buffer has room for the file of every mesh within the limits.
pub const BUFFER: usize = 61451;

// Writes the file to standard output, as `put_shortest` puts it, and answers whether it was written.
pub fn say_file(rt: HostRuntime, lists: MeshLists) -> bool {
    let mut file = [0u8; BUFFER];
    let end = put_shortest(&mut file, lists);
    say_up_to(rt, &file, end)
}

// The bytes of the file, as far as the buffer reaches: of version 1 where the sharpness is 8 throughout, else of version 2.
fn put_shortest(file: &mut [u8], lists: MeshLists) -> usize
    ensures { ShortestPut (of_lists lists.entry) file.old file.new result }
{
    let sharp = !is_plain(lists.sharpness);
    put_file(file, sharp, lists)
}

// Whether a sharpness list is 8 throughout, so that version 1 says it.
pub(crate) fn is_plain(sharpness: &[u8]) -> bool
    ensures { TellsPlain sharpness.now result }
{
    sharpness.iter().all(|n| *n == PLAIN)
}

// The bytes of the file, as far as the buffer reaches: of version 2 where `sharp`, else of version 1.
pub fn put_file(file: &mut [u8], sharp: bool, lists: MeshLists) -> usize
    ensures { Put file.old 0 (file_bytes sharp (of_lists lists.entry)) file.new result }
{
    if sharp {
        let end = put_lists(file, 2, lists.coordinates, lists.sides, lists.corners);
        return put_word(file, end, lists.sharpness);
    }
    put_lists(file, 1, lists.coordinates, lists.sides, lists.corners)
}

// The header, and the three lists that both versions have.
fn put_lists(
    file: &mut [u8],
    version: usize,
    coordinates: &[i32],
    sides: &[u8],
    corners: &[u16],
) -> usize
    ensures { Put file.old 0 (list_bytes version coordinates.now sides.now corners.now) file.new result }
{
    let header = put_header(
        file,
        version,
        coordinates.len() / 3,
        sides.len(),
        corners.len(),
    );
    let numbers = put_coordinates(file, header, coordinates);
    let counts = put_word(file, numbers, sides);
    put_corners(file, counts, corners)
}

// The mark, the version and the three counts.
fn put_header(
    file: &mut [u8],
    version: usize,
    vertices: usize,
    faces: usize,
    corners: usize,
) -> usize
    ensures { Put file.old 0 (header_bytes version vertices faces corners) file.new result }
{
    let mark = put_word(file, 0, b"DMS");
    let first = put_half(file, mark, version);
    let second = put_half(file, first, vertices);
    let third = put_half(file, second, faces);
    put_half(file, third, corners)
}

// The low 16 bits of a number.
fn put_half(file: &mut [u8], at: usize, n: usize) -> usize
    ensures { Put file.old at (half_bytes n) file.new result }
{
    let [low, high, ..] = n.to_le_bytes();
    put_word(file, at, &[low, high])
}

// A coordinate.
fn put_coordinate(file: &mut [u8], at: usize, z: i32) -> usize
    ensures { Put file.old at (word_bytes z) file.new result }
{
    put_word(file, at, &z.to_le_bytes())
}

// The coordinates.
fn put_coordinates(file: &mut [u8], from: usize, coordinates: &[i32]) -> usize
    ensures { Put file.old from (coordinate_bytes coordinates.now (length coordinates.now)) file.new result }
{
    let mut at = from;
    for z in coordinates {
        at = put_coordinate(file, at, *z);
    }
    at
}

// The corner list.
fn put_corners(file: &mut [u8], from: usize, corners: &[u16]) -> usize
    ensures { Put file.old from (corner_bytes corners.now (length corners.now)) file.new result }
{
    let mut at = from;
    for vertex in corners {
        at = put_half(file, at, usize::from(*vertex));
    }
    at
}
