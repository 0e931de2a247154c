// The nets in the lanes: a lane is one place of each row. One loop over the four lanes makes the net of each from the rows that it has; the compiler
// turns it into steps on four numbers at once. The points stand in rows of four too.
ghost use Rattle.std.specs.Prelude.{◌≡◌, ℕ, ◌+◌, ◌*◌, ◌<◌, length};
ghost use Rattle.surface.specs.Points.{point_row};
ghost use Rattle.net.specs.lanes.Lanes.{rows_face, LaneReady, LaneMade, LaneFilled};

use crate::stencil::{FACE, VERTEX};
use faces::point;
use net_rows::sides::FaceValues;

// What a net is made from beside the rows: C of the vertex's and of the face's ring, and the place of the corner in the run.
#[derive(Clone, Copy)]
pub struct Rings {
    pub vertex: i64,
    pub face: i64,
    pub place: usize,
}

// The face of a ring in lane k: the centre in row i, the points behind and ahead from row j on.
fn ring_face(stencil: &[i32], k: usize, i: usize, j: usize) -> FaceValues
    requires { (point_row * i + k < length stencil.now) × (point_row * (j + 1) + k < length stencil.now) }
    ensures { result ≡ rows_face stencil.now k i j }
{
    FaceValues {
        centre: point(stencil, k, i),
        ahead: point(stencil, k, j + 1),
        behind: point(stencil, k, j),
    }
}

// The four sides in lane k.
pub fn lane_sides(stencil: &[i32], k: usize, rings: Rings) -> net_rows::sides::NetSides
    requires { LaneReady stencil.now k rings }
    ensures { LaneMade stencil.now k rings result }
{
    let vertex = ring_face(stencil, k, VERTEX, VERTEX + 1);
    let face = ring_face(stencil, k, FACE, FACE + 1 + rings.place);
    net_rows::sides::sides_of(stencil, k, vertex, face, rings.vertex, rings.face)
}

// The loop over the lanes.
pub(crate) fn fill_lanes(stencil: &[i32], rings: Rings, lanes: &mut [i32])
    requires { ((k : ℕ) → k < 4 → LaneReady stencil.now k rings) × (length lanes.old ≡ 164) }
    ensures { (k : ℕ) → k < 4 → LaneFilled stencil.now k rings lanes.new }
{
    for k in 0..4 {
        let four = lane_sides(stencil, k, rings);
        net_rows::points::put_lane(four, lanes, k);
    }
}
