#![tactic(auto)]
// The sums of the faces that are needed, once for each face, in a table with a row for each face; and a vertex on an axis.
ghost use Rattle.std.specs.Prelude.{IsTrue, ◌↔◌, ◌≡◌, ◌+◌, ◌*◌, ◌≤◌, ◌<◌, length};
ghost use Rattle.paper.specs.Mesh.{most_sides, plain_mesh};
ghost use Rattle.paper.specs.Corners.{sum_of};
ghost use Rattle.mesh.specs.Tables.{Named};
ghost use Rattle.face_sums.specs.Marks.{SomeIn, AtMark};
ghost use Rattle.face_sums.specs.Sums.{FacesWithin, Placed, vertex_steps, sum_row, RowSummed, SumsAre};

// The numbers in a row of the table, one for each axis. A face has at least three corners, so the table has no more numbers than the mesh has
// corners.
pub const SUM_ROW: usize = 3;

// Σ of the faces that have a corner at a marked vertex, on the three axes, in grid steps. These get an entry in `wanted` that is not zero. Sums do not
// depend on sharpness, so the contract speaks of the mesh with 8 and 8 throughout.
pub fn fill_sums(
    coordinates: &[i32],
    sides: &[u8],
    corners: &[u16],
    marked: &[u8],
    wanted: &mut [u8],
    sums: &mut [i32],
)
    requires mesh { FacesWithin sides.now × (sum_of sides.now ≡ length corners.now) × Placed coordinates.now corners.now }
    requires marked { Named corners.now (length marked.now) }
    requires room { (length sides.now ≤ length wanted.old) × (sum_row * length sides.now ≤ length sums.old) }
    ensures { SumsAre (plain_mesh coordinates.now sides.now corners.now) marked.now (length sides.now) wanted.new sums.new }
{
    let mut start = 0;
    for f in 0..sides.len() {
        let end = start + sides[f] as usize;
        let face = &corners[start..end];
        let any = any_marked(face, marked);
        wanted[f] = u8::from(any);
        if any {
            sum_face(coordinates, face, f, sums);
        }
        start = end;
    }
}

// Whether one of a face's corners has its vertex marked. It looks at all of them: that is no slower than to stop at the first, which the
// processor cannot foresee.
fn any_marked(face: &[u16], marked: &[u8]) -> bool
    requires { Named face.now (length marked.now) }
    ensures { IsTrue result ↔ SomeIn (AtMark face.now marked.now) 0 (length face.now) }
{
    let mut any = false;
    for u in face {
        if marked[*u as usize] != 0 {
            any = true;
        }
    }
    any
}

// Σ of face f, by its corners: one pass for the three axes.
fn sum_face(coordinates: &[i32], face: &[u16], f: usize, sums: &mut [i32])
    requires placed { Placed coordinates.now face.now }
    requires face { length face.now ≤ most_sides }
    requires sums { sum_row * f + sum_row ≤ length sums.old }
    ensures { RowSummed coordinates.now face.now 0 (length face.now) f sums.old sums.new }
{
    let mut x = 0;
    let mut y = 0;
    let mut z = 0;
    for c in 0..face.len() {
        x += coordinate(coordinates, face, 0, c);
        y += coordinate(coordinates, face, 1, c);
        z += coordinate(coordinates, face, 2, c);
    }
    sums[SUM_ROW * f] = x;
    sums[SUM_ROW * f + 1] = y;
    sums[SUM_ROW * f + 2] = z;
}

// The vertex of a corner on an axis, in grid steps.
pub fn coordinate(coordinates: &[i32], corners: &[u16], axis: usize, c: usize) -> i32
    requires placed { Placed coordinates.now corners.now }
    requires corner { (axis < 3) × (c < length corners.now) }
    ensures { result ≡ vertex_steps coordinates.now corners.now axis c }
{
    let v = corners[c] as usize;
    coordinates[3 * v + axis]
}
