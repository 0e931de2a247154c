// The lists of a DMS file, read into lent spaces: coordinates in two's complement, side counts, the corner list, and the sharpness list.
ghost use Rattle.std.specs.Prelude.{◌≡◌, ◌+◌, ◌*◌, ◌<◌, ◌≤◌, length};
ghost use Rattle.paper.specs.Scan.{values_from};
ghost use Rattle.paper.specs.Mesh.{mesh_of};
ghost use Rattle.paper.specs.File.{signed_at, header_length, corners_in, sharpness_start, expected_length, coordinate_in, side_in, corner_in, sharpness_in, begins};
ghost use Rattle.dms_lists.specs.header.ListsWithin.{ListsWithin};
ghost use Rattle.dms_lists.specs.lists.Room.{Room, ListsRead};

use crate::header::{HEADER, half};
use paper::PLAIN;

// The coordinate at a place: four bytes in two's complement, low byte first.
pub fn coordinate(file: &[u8], at: usize) -> i32
    requires { at + 3 < length file.now }
    ensures { result ≡ signed_at file.now at }
{
    i32::from_le_bytes([file[at], file[at + 1], file[at + 2], file[at + 3]])
}

// The coordinates, into the beginning of a lent space.
fn read_coordinates(file: &[u8], count: usize, out: &mut [i32])
    requires { (header_length + 4 * count ≤ length file.now) × (count ≤ length out.old) }
    ensures { out.new ≡ begins (values_from (coordinate_in file.now) 0 count) out.old }
{
    for i in 0..count {
        out[i] = coordinate(file, HEADER + 4 * i);
    }
}

// Bytes, from the place where they start: the side counts, and the sharpness list of version 2. With `copy_from_slice` the archive for C asked for `memmove`
// too, and the header promises that it needs only memcpy and memset.
fn read_bytes(file: &[u8], start: usize, count: usize, out: &mut [u8])
    requires { (start + count ≤ length file.now) × (count ≤ length out.old) }
    ensures { out.new ≡ begins (values_from (side_in file.now start) 0 count) out.old }
{
    for i in 0..count {
        out[i] = file[start + i];
    }
}

// The corner list, from the place where it starts.
fn read_corners(file: &[u8], start: usize, count: usize, out: &mut [u16])
    requires { (start + 2 * count ≤ length file.now) × (count ≤ length out.old) }
    ensures { out.new ≡ begins (values_from (corner_in file.now start) 0 count) out.old }
{
    for c in 0..count {
        out[c] = half(file, start + 2 * c);
    }
}

// The sharpness list: two bytes for each corner in version 2, 8 and 8 in version 1.
fn read_sharpness(file: &[u8], out: &mut [u8])
    requires { (header_length ≤ length file.now) × (expected_length file.now ≤ length file.now) × (2 * corners_in file.now ≤ length out.old) }
    ensures { out.new ≡ begins (values_from (sharpness_in file.now (sharpness_start file.now)) 0 (2 * corners_in file.now)) out.old }
{
    let count = 2 * crate::header::corner_count(file);
    if crate::header::is_sharp(file) {
        read_bytes(file, crate::header::sharpness_start(file), count, out);
    } else {
        out[..count].fill(PLAIN);
    }
}

// The four lists of a file whose header passes, into spaces that have room for them.
pub fn read_lists(
    file: &[u8],
    coordinates: &mut [i32],
    sides: &mut [u8],
    corners: &mut [u16],
    sharpness: &mut [u8],
)
    requires { ListsWithin file.now × Room file.now (length coordinates.old) (length sides.old) (length corners.old) (length sharpness.old) }
    ensures { ListsRead file.now (mesh_of coordinates.old sides.old corners.old sharpness.old) (mesh_of coordinates.new sides.new corners.new sharpness.new) }
{
    read_coordinates(file, 3 * crate::header::vertex_count(file), coordinates);
    read_bytes(
        file,
        crate::header::sides_start(file),
        crate::header::face_count(file),
        sides,
    );
    read_corners(
        file,
        crate::header::corners_start(file),
        crate::header::corner_count(file),
        corners,
    );
    read_sharpness(file, sharpness);
}
