#![tactic(auto)]
// The refined point of one corner, on the three axes: from the sum of its face, the vertices of three corners, and the weights of its sharpness.
// It is computed in grid steps, and 32 bits hold every number on the way.
ghost use Rattle.std.specs.Prelude.{◌≡◌, ◌+◌, ◌*◌, ◌≤◌, ◌<◌, length, get_or};
ghost use Rattle.paper.specs.Mesh.{least_sides, most_sides};
ghost use Rattle.surface.specs.Points.{point_row};
ghost use Rattle.face_sums.specs.Sums.{Placed, sum_row};
ghost use Rattle.corner_points.specs.RefinedPoints.{SmallPoints};
ghost use Rattle.corner_points.specs.Mean.{Pair, sharpness_weights, Balanced, Steps, Known, mean, MeanOf, CornerLists, FaceSumsRead, FaceKnown, CornerPointed};

use face_sums::{SUM_ROW, coordinate};
use numbers::rounding::{reciprocal, round_by};
use paper::SHARPNESS_PER_CORNER;
use surface::POINT_ROW;
use walk::Walker;

// What V is divided by for each side of its face: 512 in ticks (L8), of which a grid step has 256.
const PER_SIDE: i32 = 2;

// What the corners of a face share: its sides with the reciprocal of V's divisor, and Σ in grid steps.
#[derive(Clone, Copy)]
pub struct FaceSums {
    pub sides: u8,
    pub reciprocal: u64,
    pub x: i32,
    pub y: i32,
    pub z: i32,
}

// A corner with the previous and the next corner of its face.
#[derive(Clone, Copy)]
struct ThreeCorners {
    before: usize,
    here: usize,
    after: usize,
}

// What Σ and the vertices of the three corners are multiplied with; the four sum to 512.
#[derive(Clone, Copy)]
struct CornerWeights {
    face: u32,
    before: u32,
    here: u32,
    after: u32,
}

// What the corners of face f share, from its row of the table of sums. Nothing else of a sum reaches the corners.
pub fn read_face(sides: &[u8], sums: &[i32], f: usize) -> FaceSums
    requires sides { (f < length sides.now) × (least_sides ≤ get_or sides.now f 0) × (get_or sides.now f 0 ≤ most_sides) }
    requires sums { sum_row * f + sum_row ≤ length sums.now }
    ensures { FaceSumsRead sides.now sums.now f result }
{
    let n = sides[f];
    FaceSums {
        sides: n,
        reciprocal: reciprocal(PER_SIDE * n as i32),
        x: sums[SUM_ROW * f],
        y: sums[SUM_ROW * f + 1],
        z: sums[SUM_ROW * f + 2],
    }
}

// The refined point of one corner of a face, on the three axes. All three are computed before one is put into the table: the compiler does not
// know that this leaves the lists as they are.
pub fn fill_corner(
    coordinates: &[i32],
    corners: &[u16],
    sharpness: &[u8],
    table: &[u16],
    face: FaceSums,
    c: usize,
    points: &mut [i32],
)
    requires lists { CornerLists coordinates.now corners.now sharpness.now table.now }
    requires face { (c < length corners.now) × FaceKnown face }
    requires points { (point_row * length corners.now ≤ length points.old) × SmallPoints points.old }
    ensures { CornerPointed coordinates.now corners.now sharpness.now table.now face c points.old points.new }
{
    let at = Walker { corner: c };
    let p = at.previous(table);
    let q = at.next(table);
    let w = weigh(sharpness, c);
    let around = ThreeCorners {
        before: p.corner,
        here: c,
        after: q.corner,
    };
    let x = on_axis(coordinates, corners, 0, around, w, face.x, face);
    let y = on_axis(coordinates, corners, 1, around, w, face.y, face);
    let z = on_axis(coordinates, corners, 2, around, w, face.z, face);
    points[POINT_ROW * c] = x;
    points[POINT_ROW * c + 1] = y;
    points[POINT_ROW * c + 2] = z;
}

// The weights of a corner, by its sharpness.
fn weigh(sharpness: &[u8], c: usize) -> CornerWeights
    requires { Pair sharpness.now c }
    ensures { result ≡ sharpness_weights sharpness.now c }
{
    let u = sharpness[SHARPNESS_PER_CORNER * c] as u32;
    let v = sharpness[SHARPNESS_PER_CORNER * c + 1] as u32;
    let to_u = 16 - u;
    let to_v = 16 - v;
    CornerWeights {
        face: 2 * to_u * to_v,
        before: to_u * v,
        here: 16 * (u + v),
        after: u * to_v,
    }
}

// V on one axis, with Σ.
fn on_axis(
    coordinates: &[i32],
    corners: &[u16],
    axis: usize,
    around: ThreeCorners,
    w: CornerWeights,
    total: i32,
    face: FaceSums,
) -> i32
    requires placed { Placed coordinates.now corners.now }
    requires corners { (axis < 3) × (around.before < length corners.now) × (around.here < length corners.now) × (around.after < length corners.now) }
    requires face { Known total face × Balanced w }
    ensures { MeanOf coordinates.now corners.now axis around w total face.sides result }
{
    let before = coordinate(coordinates, corners, axis, around.before);
    let here = coordinate(coordinates, corners, axis, around.here);
    let after = coordinate(coordinates, corners, axis, around.after);
    refined(w, total, before, here, after, face)
}

// V from Σ, the vertices of the previous corner, of the corner and of the next, with their weights, and the sides of the face.
fn refined(w: CornerWeights, total: i32, before: i32, here: i32, after: i32, face: FaceSums) -> i32
    requires { Steps total before here after face × Balanced w }
    ensures { result ≡ mean w total before here after face.sides }
{
    let n = face.sides;
    let m = face.reciprocal;
    let three = w.before as i32 * before + w.here as i32 * here + w.after as i32 * after;
    let t = w.face as i32 * total + n as i32 * three;
    round_by(t, PER_SIDE * n as i32, m)
}
