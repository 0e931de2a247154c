// The counts that `inspect` prints: vertices, faces and corners, and how many vertices have m corners and faces m sides.
// A tally says how often each number stands in a list. The corner list's tally holds the corners of each vertex; the tally of
// those, and that of the side counts, are the numbers for each m.
ghost use Rattle.std.specs.Prelude.{◌≡◌, List, map, ℕ, ◌+◌, ◌/◌, ◌<◌, ◌≤◌, length, get_or, set, replicate};
ghost use Rattle.paper.specs.Mesh.{most_vertices, most_faces, most_corners, mesh_of};
ghost use Rattle.paper.specs.Counts.{Counted};
ghost use Rattle.surveying.specs.Tally.{Numbers, tally_of};

use paper::{Counts, MOST_VERTICES, NUMBERS};

// One more of m, where the table reaches it.
fn count_one(table: &mut [u16], m: usize)
    requires { get_or table.old m 0 < 65535 }
    ensures { table.new ≡ set table.old m (get_or table.old m 0 + 1) }
{
    if m < table.len() {
        table[m] += 1;
    }
}

// The tally of a list of numbers, of whatever type.
fn tally<T: Copy + Into<usize>>(values: &[T], table: &mut [u16])
    requires { (length values.now ≤ 65535) × (table.old ≡ replicate (length table.old) 0) }
    ensures { (number : T → ℕ) → Numbers T.converts number → table.new ≡ tally_of (map number values.now) (length table.old) }
{
    for x in values {
        count_one(table, (*x).into());
    }
}

// The counts of a mesh within the limits.
pub(crate) fn count(coordinates: &[i32], sides: &[u8], corners: &[u16]) -> Counts
    requires { (length coordinates.now / 3 ≤ most_vertices) × ((length sides.now ≤ most_faces) × (length corners.now ≤ most_corners)) }
    ensures { (sharpness : List ℕ) → Counted (mesh_of coordinates.now sides.now corners.now sharpness) result }
{
    let vertices = coordinates.len() / 3;
    let mut valences = [0u16; MOST_VERTICES];
    tally(corners, &mut valences);
    let mut cornered = [0u16; NUMBERS];
    tally(&valences[..vertices], &mut cornered);
    let mut sided = [0u16; NUMBERS];
    tally(sides, &mut sided);
    Counts {
        vertices,
        faces: sides.len(),
        corners: corners.len(),
        cornered,
        sided,
    }
}
