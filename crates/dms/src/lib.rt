#![tactic(auto)]
// The mesh file DMS as a whole: the bytes read, and the length counted, give its counts, or its lists, or why it is turned down.
// A file is checked by 1 to 13 and 28 in local copies of its lists, before anything is written to a lent space.
ghost use Rattle.std.specs.Prelude.{◌≡◌, ℕ, ◌<◌, ◌≤◌, length};
ghost use Rattle.paper.specs.Mesh.{mesh_of};
ghost use Rattle.paper.specs.Faults.{sound, stated};
ghost use Rattle.paper.specs.File.{header_length, header_verdict, file_of, FileSurveyed, room_verdict, DecodedTo};
ghost use Rattle.dms_lists.specs.header.ListsWithin.{ListsWithin};

use dms_lists::header::{check_header, corner_count, face_count, vertex_count};
use dms_lists::lists::read_lists;
use paper::{
    Counts, Lengths, MOST_CORNERS, MOST_FACES, MOST_NUMBERS, MOST_PAIRS, MeshLists, NO_ROOM,
    Refusal,
};
use surveying::survey_lists;

// The counts of the file, from the bytes read and the length counted.
pub fn survey(bytes: &[u8], counted: usize) -> Result<Counts, Refusal>
    ensures { FileSurveyed (file_of bytes.now counted) counted result }
{
    let held = bytes.len().min(counted);
    survey_file(&bytes[..held], counted)
}

// The lists of the file, into the beginnings of the lent spaces.
pub fn decode(
    bytes: &[u8],
    counted: usize,
    coordinates: &mut [i32],
    sides: &mut [u8],
    corners: &mut [u16],
    sharpness: &mut [u8],
) -> Result<Lengths, Refusal>
    ensures { DecodedTo (file_of bytes.now counted) counted (mesh_of coordinates.old sides.old corners.old sharpness.old) result (mesh_of coordinates.new sides.new corners.new sharpness.new) }
{
    let held = bytes.len().min(counted);
    let file = &bytes[..held];
    check_header(file, counted)?;
    decode_lists(file, coordinates, sides, corners, sharpness)
}

// The same as `survey`, of the file itself.
fn survey_file(file: &[u8], counted: usize) -> Result<Counts, Refusal>
    ensures { FileSurveyed file.now counted result }
{
    check_header(file, counted)?;
    survey_lists(file)
}

// The same as `decode`, of a file whose header passes, `counted` bytes long: its lists are read once, checked, and copied.
fn decode_lists(
    file: &[u8],
    coordinates: &mut [i32],
    sides: &mut [u8],
    corners: &mut [u16],
    sharpness: &mut [u8],
) -> Result<Lengths, Refusal>
    requires { ListsWithin file.now }
    ensures { (counted : ℕ) → header_verdict file.now counted ≡ sound → DecodedTo file.now counted (mesh_of coordinates.old sides.old corners.old sharpness.old) result (mesh_of coordinates.new sides.new corners.new sharpness.new) }
{
    let mut numbers = [0i32; MOST_NUMBERS];
    let mut counts = [0u8; MOST_FACES];
    let mut names = [0u16; MOST_CORNERS];
    let mut pairs = [0u8; MOST_PAIRS];
    read_lists(file, &mut numbers, &mut counts, &mut names, &mut pairs);
    let n = 3 * vertex_count(file);
    let f = face_count(file);
    let k = corner_count(file);
    let p = 2 * k;
    let own_numbers = &numbers[..n];
    let own_counts = &counts[..f];
    let own_names = &names[..k];
    let own_pairs = &pairs[..p];
    checks::check(MeshLists {
        coordinates: own_numbers,
        sides: own_counts,
        corners: own_names,
        sharpness: own_pairs,
    })?;
    let lent = Lengths {
        coordinates: coordinates.len(),
        sides: sides.len(),
        corners: corners.len(),
        sharpness: sharpness.len(),
    };
    check_room(file, lent)?;
    coordinates[..n].copy_from_slice(own_numbers);
    sides[..f].copy_from_slice(own_counts);
    corners[..k].copy_from_slice(own_names);
    sharpness[..p].copy_from_slice(own_pairs);
    Ok(Lengths {
        coordinates: n,
        sides: f,
        corners: k,
        sharpness: p,
    })
}

// Whether spaces of these lengths have room for the lists.
fn check_room(file: &[u8], lent: Lengths) -> Result<(), Refusal>
    requires { header_length ≤ length file.now }
    ensures { stated result ≡ room_verdict file.now lent.coordinates lent.sides lent.corners lent.sharpness }
{
    let numbers = 3 * vertex_count(file);
    if lent.coordinates < numbers {
        return Err(Refusal {
            number: NO_ROOM,
            place: numbers,
        });
    }
    let faces = face_count(file);
    if lent.sides < faces {
        return Err(Refusal {
            number: NO_ROOM,
            place: faces,
        });
    }
    let count = corner_count(file);
    if lent.corners < count {
        return Err(Refusal {
            number: NO_ROOM,
            place: count,
        });
    }
    if lent.sharpness < 2 * count {
        return Err(Refusal {
            number: NO_ROOM,
            place: 2 * count,
        });
    }
    Ok(())
}
