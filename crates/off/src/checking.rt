// The lists of an OFF text, with checks 25, 26 and then 4 to 13.
ghost use Rattle.std.specs.Prelude.{◌≡◌, ◌*◌, ◌≤◌, length};
ghost use Rattle.paper.specs.Mesh.{Mesh, plain_mesh, most_corners};
ghost use Rattle.paper.specs.Faults.{verdict, stated};
ghost use Rattle.off_words.specs.Cursor.{Before};
ghost use Rattle.off_lists.specs.Reading.{Lists};
ghost use Rattle.off.specs.checking.Call.{OwnRoom, TextChecked};

use off_words::Cursor;
use paper::{Lengths, MOST_PAIRS, MeshLists, PLAIN, Refusal};

// Checks 25, 26 and 4 to 13, with the lists in own ones.
pub(crate) fn read_checked(
    text: &[u8],
    c: Cursor,
    coordinates: &mut [i32],
    sides: &mut [u8],
    corners: &mut [u16],
) -> Result<Lengths, Refusal>
    requires { Before text.now 1 c × OwnRoom coordinates.old sides.old corners.old }
    ensures { TextChecked text.now result coordinates.new sides.new corners.new }
{
    let lengths = off_lists::read_words(text, c, coordinates, sides, corners)?;
    check(lengths, coordinates, sides, corners)?;
    Ok(lengths)
}

// Checks 4 to 13, of lists of these lengths in own ones: first 4, by the lengths alone, as not all need have room.
fn check(
    lengths: Lengths,
    coordinates: &[i32],
    sides: &[u8],
    corners: &[u16],
) -> Result<(), Refusal>
    requires { OwnRoom coordinates.now sides.now corners.now }
    ensures { (M : Mesh) → Lists M lengths coordinates.now sides.now corners.now → stated result ≡ verdict M }
{
    let n = lengths.coordinates;
    let f = lengths.sides;
    let k = lengths.corners;
    list_checks::check_lengths(n, f, k)?;
    check_plain(&coordinates[..n], &sides[..f], &corners[..k])
}

// Checks 4 to 13 of lists whose sharpness is 8 and 8 throughout.
fn check_plain(coordinates: &[i32], sides: &[u8], corners: &[u16]) -> Result<(), Refusal>
    requires { length corners.now ≤ most_corners }
    ensures { stated result ≡ verdict (plain_mesh coordinates.now sides.now corners.now) }
{
    let eights = [PLAIN; MOST_PAIRS];
    let pairs = 2 * corners.len();
    checks::check(MeshLists {
        coordinates,
        sides,
        corners,
        sharpness: &eights[..pairs],
    })
}
