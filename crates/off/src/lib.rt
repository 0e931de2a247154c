#![tactic(auto)]
// L6, reading OFF files: check 24, then 25, 26 and 4 to 13 (`checking`), and the four lists, the last of them 8 and 8 throughout. The
// lists are read into own ones, and copied to the lent ones when every check has passed.
mod checking;

ghost use Rattle.std.specs.Prelude.{◌≡◌, true, ◌*◌, ◌<◌, ◌≤◌, length};
ghost use Rattle.paper.specs.Mesh.{mesh_of, four, most_corners};
ghost use Rattle.paper.specs.Off.{short, OffRead};
ghost use Rattle.off_words.specs.Cursor.{Before};
ghost use Rattle.off.specs.checking.Call.{OwnRoom, TextCopied};

use crate::checking::read_checked;
use off_words::Cursor;
use paper::{Lengths, MOST_CORNERS, MOST_FACES, MOST_NUMBERS, MOST_PAIRS, PLAIN, Refusal};

// The lists of an OFF text, into the beginnings of the lent ones.
pub fn read(
    text: &[u8],
    coordinates: &mut [i32],
    sides: &mut [u8],
    corners: &mut [u16],
    sharpness: &mut [u8],
) -> Result<Lengths, Refusal>
    ensures { OffRead text.now (mesh_of coordinates.old sides.old corners.old sharpness.old) result (mesh_of coordinates.new sides.new corners.new sharpness.new) }
{
    let refusal = Refusal {
        number: 24,
        place: 0,
    };
    if too_short(coordinates, sides, corners, sharpness) {
        return Err(refusal);
    }
    let start = off_words::read_mark(text).ok_or(refusal)?;
    let mut numbers = [0i32; MOST_NUMBERS];
    let mut sizes = [0u8; MOST_FACES];
    let mut names = [0u16; MOST_CORNERS];
    read_through(
        text,
        start,
        &mut numbers,
        &mut sizes,
        &mut names,
        coordinates,
        sides,
        corners,
        sharpness,
    )
}

// Whether a lent list is too short, of 24.
#[tactic(auto, unfolding(paper::specs::Off::short))]
fn too_short(coordinates: &[i32], sides: &[u8], corners: &[u16], sharpness: &[u8]) -> bool
    ensures { result ≡ short (four (length coordinates.now) (length sides.now) (length corners.now) (length sharpness.now)) }
{
    coordinates.len() < MOST_NUMBERS
        || sides.len() < MOST_FACES
        || corners.len() < MOST_CORNERS
        || sharpness.len() < MOST_PAIRS
}

// The words from the first count on, into own lists; after the last check these are copied to the lent ones, and the fourth is filled. The own
// lists come as slices, each by itself: so no proof counts the zeros of an array.
fn read_through(
    text: &[u8],
    c: Cursor,
    numbers: &mut [i32],
    sizes: &mut [u8],
    names: &mut [u16],
    coordinates: &mut [i32],
    sides: &mut [u8],
    corners: &mut [u16],
    sharpness: &mut [u8],
) -> Result<Lengths, Refusal>
    requires { Before text.now 1 c × OwnRoom numbers.old sizes.old names.old × OwnRoom coordinates.old sides.old corners.old × (2 * most_corners ≤ length sharpness.old) }
    ensures { TextCopied text.now (mesh_of coordinates.old sides.old corners.old sharpness.old) result (mesh_of coordinates.new sides.new corners.new sharpness.new) }
{
    let lengths = read_checked(text, c, numbers, sizes, names)?;
    mesh::copy(&numbers[..lengths.coordinates], coordinates);
    mesh::copy(&sizes[..lengths.sides], sides);
    mesh::copy(&names[..lengths.corners], corners);
    let pairs = 2 * lengths.corners;
    sharpness[..pairs].fill(PLAIN);
    Ok(Lengths {
        sharpness: pairs,
        ..lengths
    })
}
