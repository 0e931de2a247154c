#![tactic(auto)]
// Checks 4 to 8 with 27 and 28, over the lists themselves: each answers its fault at the lowest place, or that there is none.
ghost use Rattle.std.specs.Prelude.{◌≡◌, true, false, ℕ, ◌*◌, ◌≤◌, ◌<◌, length, get_or};
ghost use Rattle.paper.specs.Mesh.{most_faces, most_corners, of_lists};
ghost use Rattle.paper.specs.Corners.{sum_of};
ghost use Rattle.paper.specs.Faults.{single, lowest_of, fault4, fault27, fault5, fault6, fault7, fault8, fault28, stated};
ghost use Rattle.list_checks.specs.Entries.{at_found, entry_faults};

use paper::{
    LEAST_SIDES, MOST_COORDINATE, MOST_CORNERS, MOST_FACES, MOST_SHARPNESS, MOST_SIDES,
    MOST_VERTICES, MeshLists, Refusal, SHARPNESS_PER_CORNER,
};

// All of them, in their order.
pub fn check(lists: MeshLists) -> Result<(), Refusal>
    ensures { stated result ≡ entry_faults (of_lists lists.entry) }
{
    check_lengths(
        lists.coordinates.len(),
        lists.sides.len(),
        lists.corners.len(),
    )?;
    check_pairs(lists.sharpness.len(), lists.corners.len())?;
    check_sides(lists.sides)?;
    check_sum(lists.sides, lists.corners.len())?;
    check_coordinates(lists.coordinates)?;
    check_names(lists.coordinates.len() / 3, lists.corners)?;
    check_sharpness(lists.sharpness)
}

// Check 4, of the lists' lengths.
pub fn check_lengths(coordinates: usize, faces: usize, corners: usize) -> Result<(), Refusal>
    ensures { stated result ≡ single 4 (fault4 coordinates faces corners) 0 }
{
    if coordinates % 3 != 0
        || !(1..=MOST_VERTICES).contains(&(coordinates / 3))
        || !(1..=MOST_FACES).contains(&faces)
        || !(1..=MOST_CORNERS).contains(&corners)
    {
        return Err(Refusal {
            number: 4,
            place: 0,
        });
    }
    Ok(())
}

// Check 27, of the sharpness list's length: two numbers for each corner.
pub(crate) fn check_pairs(sharpness: usize, corners: usize) -> Result<(), Refusal>
    requires { corners ≤ most_corners }
    ensures { stated result ≡ single 27 (fault27 sharpness corners) sharpness }
{
    if sharpness != SHARPNESS_PER_CORNER * corners {
        return Err(Refusal {
            number: 27,
            place: sharpness,
        });
    }
    Ok(())
}

// Check 5, of the faces' side counts.
pub(crate) fn check_sides(sides: &[u8]) -> Result<(), Refusal>
    ensures { stated result ≡ lowest_of 5 (length sides.now) (fault5 sides.now) }
{
    let found = sides
        .iter()
        .position(|s| !(LEAST_SIDES..=MOST_SIDES).contains(&usize::from(*s)));
    at_lowest(5, found)
}

// Check 6: the side counts sum to the corner count.
pub(crate) fn check_sum(sides: &[u8], corners: usize) -> Result<(), Refusal>
    requires { length sides.now ≤ most_faces }
    ensures { stated result ≡ single 6 (fault6 sides.now corners) (sum_of sides.now) }
{
    let total: usize = sides.iter().map(|s| usize::from(*s)).sum();
    if total != corners {
        return Err(Refusal {
            number: 6,
            place: total,
        });
    }
    Ok(())
}

// Check 7, of the coordinates. Nearly every list passes: it is read without an early end first, several numbers at a time, as in checks 8 and 28.
pub(crate) fn check_coordinates(coordinates: &[i32]) -> Result<(), Refusal>
    ensures { stated result ≡ lowest_of 7 (length coordinates.now) (fault7 coordinates.now) }
{
    if all_within(coordinates) {
        return Ok(());
    }
    let found = coordinates
        .iter()
        .position(|z| !(-MOST_COORDINATE..=MOST_COORDINATE).contains(z));
    at_lowest(7, found)
}

// Whether each coordinate passes.
fn all_within(coordinates: &[i32]) -> bool
    ensures { result ≡ true → (j : ℕ) → j < length coordinates.now → fault7 coordinates.now j ≡ false }
{
    let mut within = true;
    for z in coordinates {
        if !(-MOST_COORDINATE..=MOST_COORDINATE).contains(z) {
            within = false;
        }
    }
    within
}

// Check 8: each corner names a vertex.
pub(crate) fn check_names(vertices: usize, corners: &[u16]) -> Result<(), Refusal>
    ensures { stated result ≡ lowest_of 8 (length corners.now) (fault8 vertices corners.now) }
{
    let highest = corners.iter().copied().max().unwrap_or(0);
    if usize::from(highest) < vertices {
        return Ok(());
    }
    let found = corners.iter().position(|u| vertices <= usize::from(*u));
    at_lowest(8, found)
}

// Check 28, of the sharpness numbers.
pub(crate) fn check_sharpness(sharpness: &[u8]) -> Result<(), Refusal>
    ensures { stated result ≡ lowest_of 28 (length sharpness.now) (fault28 sharpness.now) }
{
    let highest = sharpness.iter().copied().max().unwrap_or(0);
    if highest <= MOST_SHARPNESS {
        return Ok(());
    }
    let found = sharpness.iter().position(|s| MOST_SHARPNESS < *s);
    at_lowest(28, found)
}

// The fault at the place that a search over a list found, if it found one.
fn at_lowest(number: u8, found: Option<usize>) -> Result<(), Refusal>
    ensures { stated result ≡ at_found number found }
{
    match found {
        Some(place) => Err(Refusal { number, place }),
        None => Ok(()),
    }
}
